ghost use Rattle.std.specs.Prelude.{◌≡◌, IfOk, OnOk};
ghost use Rattle.cue_lists.specs.Listing.{IsFormed};
ghost use Rattle.cue_lists.specs.Rules.{IsRuled};
ghost use Rattle.dual_plans.specs.Clashes.{IsClash, IsFieldClash, IsLeast, earlier, is_no_later, list_events};
ghost use Rattle.dual_plans.specs.CueEvents.{AreOrdered};
ghost use Rattle.frame_carrier.specs.Planned.{authored_channel};

use crate::cue_event::{CueEvent, cue_events};
use cue_lists::{Cadence, CueList};
use line21_codes::Chan;
use std::alloc::{AllocError, Global};

/// Two cues whose events hold one slot of a field, by their numbers, which are counted from 1.
#[derive(Clone, Copy, PartialEq, Eq)]
pub struct Clash {
    /// The cue of the second list.
    pub second: u32,
    /// The cue of the first list.
    pub first: u32,
}

/// The least cue of the second list of which an event holds a slot of a field that an event of the first list holds, and the least
/// such cue of the first list. None exactly where no slot is held by both lists. `AllocError` where there is no memory for the events.
pub fn field_clash(
    alloc: Global,
    first: &CueList,
    second: &CueList,
) -> Result<Option<Clash>, AllocError>
    requires first { IsRuled first.now }
    requires second { IsRuled second.now }
    ensures least { IfOk result (IsLeast (IsFieldClash first.now second.now)) }
    ensures formed { OnOk result (IsFormed first.now × IsFormed second.now) }
{
    let one = channel_clash(alloc, first, second, Chan::Cc1)?;
    let two = channel_clash(alloc, first, second, Chan::Cc3)?;
    Ok(earlier(one, two))
}

// The least clash in the field of a channel.
fn channel_clash(
    alloc: Global,
    first: &CueList,
    second: &CueList,
    channel: Chan,
) -> Result<Option<Clash>, AllocError>
    requires first { IsRuled first.now }
    requires second { IsRuled second.now }
    ensures least { IfOk result
        (IsLeast (IsClash (list_events first.now channel) (list_events second.now channel))) }
    ensures formed { OnOk result (IsFormed first.now × IsFormed second.now) }
{
    let firsts = list_events(alloc, first, channel)?;
    let seconds = list_events(alloc, second, channel)?;
    Ok(first_clash(&firsts, &seconds))
}

// The events of a list on a channel, with the numbers of their cues.
fn list_events(alloc: Global, list: &CueList, channel: Chan) -> Result<Vec<CueEvent>, AllocError>
    requires { IsRuled list.now }
    ensures events { IfOk result (λ events. events.items ≡ list_events list.now channel) }
    ensures order { IfOk result (λ events. AreOrdered events.items) }
    ensures formed { IsFormed list.now }
{
    cue_events(
        alloc,
        list.cues(),
        channel,
        Cadence::of(list.rate(), channel),
    )
}

// The least clash of events in order.
fn first_clash(firsts: &[CueEvent], seconds: &[CueEvent]) -> Option<Clash>
    requires firsts { AreOrdered firsts.now }
    requires seconds { AreOrdered seconds.now }
    ensures { IsLeast (IsClash firsts.now seconds.now) result }
{
    let mut index = 0;
    let mut other = 0;
    while index < firsts.len() && other < seconds.len() {
        let first = firsts[index];
        let second = seconds[other];
        if first.end() <= u64::from(second.slot) {
            index += 1;
        } else if second.end() <= u64::from(first.slot) {
            other += 1;
        } else {
            return Some(Clash {
                second: second.cue,
                first: first.cue,
            });
        }
    }
    None
}

// Of the clashes in two fields the one that is named.
fn earlier(one: Option<Clash>, two: Option<Clash>) -> Option<Clash>
    ensures { result ≡ earlier one two }
{
    match (one, two) {
        (Some(one), Some(two)) => Some(if is_no_later(one, two) { one } else { two }),
        (Some(one), None) => Some(one),
        (None, two) => two,
    }
}

fn is_no_later(one: Clash, two: Clash) -> bool
    ensures { result ≡ is_no_later one two }
{
    one.second < two.second || one.second == two.second && one.first <= two.first
}
