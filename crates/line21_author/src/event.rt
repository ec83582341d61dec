ghost use Rattle.std.specs.Prelude.{◌≡◌, ℕ, ◌+◌, ◌^◌, ◌<◌, List, ◌∷◌, ◌++◌, [], All, IfOk, OnOk};
ghost use Rattle.line21_codes.specs.Writable.{IsWritableControl};
ghost use Rattle.cue_lists.specs.Rules.Lane.{is_pop};
ghost use Rattle.cue_lists.specs.Rules.Sentences.{AreInSequence, IsOnSlots};
ghost use Rattle.std.specs.Option.{option_map};
ghost use Rattle.cue_lists.specs.Cadences.{slot_from, step_of};
ghost use Rattle.line21_author.specs.CueSlots.{cues_in_slots, timed_in_slots};
ghost use Rattle.line21_author.specs.Channels.{cues_on};
ghost use Rattle.line21_author.specs.CueEvents.{control_event, show_events, hide_events, channel_events};
ghost use Rattle.line21_author.specs.EventOrder.{AreApart};
ghost use Rattle.line21_author.specs.EventPairs.{IsControlEvent};

use crate::channel::{first_channel, write_in};
use cue_lists::line21::is_on;
use cue_lists::{Cadence, Cue, Kind};
use line21_codes::{Chan, Control, FieldNumber, Pair};
use std::alloc::{AllocError, Global};

/// A control pair at a slot of its own, one that shows or erases captions: it is sent twice, in that slot of its field and in the
/// next. Slots are counted from 0.
#[derive(Clone, Copy, PartialEq, Eq)]
pub struct Event {
    pub slot: u32,
    pub pair: Pair,
}

impl Event {
    /// The first slot after the event.
    pub fn end(self) -> u64
        ensures end { result ≡ self.slot + 2 }
        ensures small { result < 2 ^ 33 }
    {
        u64::from(self.slot) + 2
    }
}

/// The events of a channel's cues, in the order of the cues (CTA-608-E, 47 CFR 79.101). The end of
/// caption (EOC) shows a pop-on cue, and the erasure of the displayed memory (EDM) comes at a cue's
/// HIDE. It isn't sent where the channel's next cue is a pop-on cue that is shown then. Each is at the
/// first slot of the channel's field that isn't before its SHOW or HIDE. Cues of other channels and
/// window cues have no part in it. `AllocError` where there is no memory for them.
pub fn events(
    alloc: Global,
    cues: &[Cue],
    channel: Chan,
    cadence: Cadence,
) -> Result<Vec<Event>, AllocError>
    ensures events { IfOk result
        (λ events. events.items ≡ channel_events channel (cues_in_slots cadence cues.now)) }
    ensures control { IfOk result (λ events. All IsControlEvent events.items) }
    ensures apart { IfOk result
        (λ events. (frames : ℕ) → AreInSequence (step_of cadence) frames (cues_on channel cues.now)
        → All (IsOnSlots cadence) (cues_on channel cues.now) → AreApart events.items) }
{
    let in_field = channel.field();
    let mut events = Vec::new(alloc);
    let mut hide = None;
    for cue in cues {
        if is_on(channel, cue.kind) {
            push_change(&mut events, in_field, hide, cue, cadence)?;
            hide = hide_slot(cadence, cue.hide);
        }
    }
    push_last_hide(&mut events, in_field, hide)?;
    Ok(events)
}

// The slot of a HIDE, where there is one.
fn hide_slot(cadence: Cadence, hide: Option<u32>) -> Option<u32>
    ensures { result ≡ option_map (slot_from cadence) hide }
{
    match hide {
        Some(frame) => Some(cadence.slot_from(frame)),
        None => None,
    }
}

// Appends the events between a cue with a HIDE at this slot and the next one, and the one that shows that.
fn push_change(
    events: &mut Vec<Event>,
    in_field: FieldNumber,
    hide: Option<u32>,
    next: &Cue,
    cadence: Cadence,
) -> Result<(), AllocError>
    ensures { OnOk result (events.new.items ≡ events.old.items
        ++ (hide_events in_field hide (timed_in_slots cadence next.now ∷ [])
        ++ show_events in_field (timed_in_slots cadence next.now))) }
{
    let pop_on = is_pop(next.kind);
    let show = cadence.slot_from(next.show);
    if let Some(slot) = hide {
        if !(pop_on && show == slot) {
            events.push(event_of(in_field, slot, Control::Edm))?;
        }
    }
    if pop_on {
        events.push(event_of(in_field, show, Control::Eoc))?;
    }
    Ok(())
}

// Appends the event that hides the channel's last cue, if it has a HIDE.
fn push_last_hide(
    events: &mut Vec<Event>,
    in_field: FieldNumber,
    hide: Option<u32>,
) -> Result<(), AllocError>
    ensures { OnOk result (events.new.items ≡ events.old.items ++ hide_events in_field hide []) }
{
    if let Some(slot) = hide {
        events.push(event_of(in_field, slot, Control::Edm))?;
    }
    Ok(())
}

// A control code at a slot, in a field.
fn event_of(in_field: FieldNumber, slot: u32, control: Control) -> Event
    requires { IsWritableControl control }
    ensures { result ≡ control_event in_field slot control }
{
    Event {
        slot,
        pair: write_in(in_field, first_channel(control)),
    }
}

// Whether the kind is pop-on.
fn is_pop(kind: Kind) -> bool
    ensures { result ≡ is_pop kind }
{
    matches!(kind, Kind::Pop(_))
}
