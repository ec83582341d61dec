ghost use Rattle.std.specs.Prelude.{◌≡◌, ◌≤◌, ◌+◌, ◌^◌, ◌<◌};
ghost use Rattle.lanes.specs.FieldPlan.{behind_frame, given_in};
ghost use Rattle.dual_plans.specs.Beside.{beside};

use cc_base::Rate;
use cue_lists::Cadence;
use frame_carrier::{FrameBytes, Overlay};
use lanes::PlacedField;
use line21_codes::{Chan, Pair};

/// The second lanes of both fields, whose pairs go into null slots.
#[derive(Drop)]
pub struct SecondLanes {
    one: PlacedField,
    two: PlacedField,
    rate: Rate,
    frame: u32,
}

impl SecondLanes {
    ghost use Rattle.dual_plans.specs.SecondLanes.{lanes_at_first};

    /// The lanes of field 1 and of field 2, from frame 0 on.
    pub fn new(one: PlacedField, two: PlacedField, rate: Rate) -> SecondLanes
        ensures { result ≡ lanes_at_first one two rate }
    {
        SecondLanes {
            one,
            two,
            rate,
            frame: 0,
        }
    }
}

impl Overlay for SecondLanes {
    ghost use Rattle.dual_plans.specs.SecondLanes.{LaysBoth, lanes_last_for};

    ghost lasts = { lanes_last_for };

    ghost Lays = { LaysBoth };

    fn lay(&mut self, bytes: FrameBytes) -> FrameBytes {
        let frame = self.frame;
        self.frame += 1;
        let one = Cadence::of(self.rate, Chan::Cc1);
        let two = Cadence::of(self.rate, Chan::Cc3);
        FrameBytes {
            one: beside(bytes.one, &mut self.one, one, frame),
            two: beside(bytes.two, &mut self.two, two, frame),
            blocks: bytes.blocks,
        }
    }
}

// The pair of a frame, with the second lane's where the first is null.
fn beside(first: Option<Pair>, lane: &mut PlacedField, cadence: Cadence, frame: u32) -> Option<Pair>
    requires { lane.old.slot + 1 < 2 ^ 32 }
    ensures pair { result ≡ beside first (given_in cadence frame lane.old) }
    ensures lane { lane.new ≡ behind_frame cadence frame lane.old }
{
    if !cadence.has_slot_in(frame) {
        return first;
    }
    let second = lane.next();
    match first {
        Some(pair) if pair.a == 0x80 && pair.b == 0x80 => Some(second),
        other => other,
    }
}
