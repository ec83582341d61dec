ghost use Rattle.std.specs.Prelude.{◌≡◌, ◌≤◌, ◌+◌, ◌++◌, IfOk, OnOk, length};
ghost use Rattle.cue_lists.specs.Listing.{most_cues};
ghost use Rattle.line21_author.specs.Channels.{cues_on};
ghost use Rattle.line21_author.specs.CueEvents.{is_replaced_at};
ghost use Rattle.line21_author.specs.CueSlots.{cues_in_slots, timed_in_slots};
ghost use Rattle.dual_plans.specs.CueEvents.{numbered, events_from, own_events};

use cue_lists::lane::is_pop;
use cue_lists::line21::is_on;
use cue_lists::{Cadence, Cue};
use line21_codes::Chan;
use std::alloc::{AllocError, Global};

/// An event of a cue: the slot in which it begins, counted from 0, and the number of its cue, counted from 1.
#[derive(Clone, Copy, PartialEq, Eq)]
pub struct CueEvent {
    pub slot: u32,
    pub cue: u32,
}

impl CueEvent {
    /// The first slot after the event, which holds two.
    pub fn end(self) -> u64
        ensures { result ≡ self.slot + 2 }
    {
        u64::from(self.slot) + 2
    }
}

/// The events of a channel with the numbers of their cues, in the order of the cues; the times of the cues in slots of the channel's
/// field. `AllocError` where there is no memory for them.
pub fn cue_events(
    alloc: Global,
    cues: &[Cue],
    channel: Chan,
    cadence: Cadence,
) -> Result<Vec<CueEvent>, AllocError>
    requires { length cues.now ≤ most_cues }
    ensures { IfOk result (λ events. events.items
        ≡ events_from channel 1 (cues_in_slots cadence cues.now)) }
{
    let mut events = Vec::new(alloc);
    for (index, cue) in cues.iter().enumerate() {
        if is_on(channel, cue.kind) {
            let later = &cues[index + 1..];
            push_cue(&mut events, channel, index as u32 + 1, cue, later, cadence)?;
        }
    }
    Ok(events)
}

// Appends the events of the cue of this number, after which the list has these cues.
fn push_cue(
    events: &mut Vec<CueEvent>,
    channel: Chan,
    number: u32,
    cue: &Cue,
    later: &[Cue],
    cadence: Cadence,
) -> Result<(), AllocError>
    ensures { OnOk result (events.new.items ≡ events.old.items
        ++ numbered number (own_events channel (timed_in_slots cadence cue.now)
        (cues_in_slots cadence later.now))) }
{
    if is_pop(cue.kind) {
        let slot = cadence.slot_from(cue.show);
        events.push(CueEvent { slot, cue: number })?;
    }
    if let Some(hide) = cue.hide {
        let slot = cadence.slot_from(hide);
        if !is_replaced(slot, channel, later, cadence) {
            events.push(CueEvent { slot, cue: number })?;
        }
    }
    Ok(())
}

// Whether the next cue on the channel is a pop-on cue that is shown at the slot.
fn is_replaced(slot: u32, channel: Chan, later: &[Cue], cadence: Cadence) -> bool
    ensures { result ≡ is_replaced_at slot (cues_on channel (cues_in_slots cadence later.now)) }
{
    for next in later {
        if is_on(channel, next.kind) {
            return is_pop(next.kind) && cadence.slot_from(next.show) == slot;
        }
    }
    false
}
