ghost use Rattle.std.specs.Prelude.{◌≡◌, ℕ, ◌≤◌, ◌↔◌, true};
ghost use Rattle.line21_slots.specs.Cadences.{cadence_of, has_slot_in, is_double, slot_frame, slot_from, slot_step};

use cc_base::Rate;
use line21_codes::{Chan, FieldNumber};

/// In which frames the slots of a field lie. Each slot is one byte pair, and the slots of a field are counted from 0, as frames
/// are.
#[derive(Clone, Copy, PartialEq, Eq)]
pub enum Cadence {
    /// Each frame has a slot: slot n lies in frame n.
    EveryFrame,
    /// Each frame with an even number has one: slot n lies in frame 2 n.
    EvenFrames,
    /// Each frame with an odd number has one: slot n lies in frame 2 n + 1.
    OddFrames,
}

impl Cadence {
    /// The cadence of a channel's field. At 59.94 and 60 frames a second field 1 has a slot in each even frame, and field 2 in
    /// each odd one; at lower rates each frame has a slot in each field.
    pub fn of(rate: Rate, channel: Chan) -> Cadence
        ensures { result ≡ cadence_of rate channel }
    {
        match (is_double(rate), channel.field()) {
            (false, _) => Cadence::EveryFrame,
            (true, FieldNumber::One) => Cadence::EvenFrames,
            (true, FieldNumber::Two) => Cadence::OddFrames,
        }
    }

    /// Whether a slot of the field lies in a frame.
    pub fn has_slot_in(self, frame: u32) -> bool
        ensures is { result ≡ has_slot_in self frame }
        ensures exact { (result ≡ true) ↔ ((slot : ℕ) × (slot_frame self slot ≡ frame)) }
    {
        match self {
            Cadence::EveryFrame => true,
            Cadence::EvenFrames => frame % 2 == 0,
            Cadence::OddFrames => frame % 2 == 1,
        }
    }

    /// The first slot that isn't before a frame, which is also the number of slots before it.
    pub fn slot_from(self, frame: u32) -> u32
        ensures slot { result ≡ slot_from self frame }
        ensures first { (slot : ℕ) → (result ≤ slot) ↔ (frame ≤ slot_frame self slot) }
    {
        match self {
            Cadence::EveryFrame => frame,
            Cadence::EvenFrames => frame / 2 + frame % 2,
            Cadence::OddFrames => frame / 2,
        }
    }
}

/// The number of frames from one slot of a field to the next: 2 at 59.94 and 60 frames a second, else 1.
pub fn slot_step(rate: Rate) -> u32
    ensures { result ≡ slot_step rate }
{
    if is_double(rate) { 2 } else { 1 }
}

// Whether the fields take turns at a rate.
fn is_double(rate: Rate) -> bool
    ensures { result ≡ is_double rate }
{
    matches!(rate, Rate::F5994 | Rate::F60)
}
