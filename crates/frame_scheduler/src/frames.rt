ghost use Rattle.std.specs.Prelude.{◌≡◌, ◌+◌, ◌^◌, ◌<◌, ◌≤◌, ℕ, All, IfNone, IfSome, MatchOption, Some, [], ◌∷◌, slice_get, slice_set};
ghost use Rattle.frame_scheduler.specs.Blocks.{blocks_room};
ghost use Rattle.frame_scheduler.specs.End.{silent_frame, silent_pair};
ghost use Rattle.frame_scheduler.specs.ServicesLeft.{HasLeft, IsNumbered};
ghost use Rattle.lanes.specs.FieldPlan.{PlannedField, behind_frame, given_in};

use crate::blocks::next_blocks;
use arrayvec::ArrayVec;
use cc_base::Rate;
use cue_lists::Cadence;
use lanes::{PlacedField, PlacedService};
use line21_codes::{Chan, NULL_PAIR, Pair};

/// What one frame carries.
#[derive(Drop)]
pub struct FrameBytes {
    /// The pair of CC1 in field 1; None where the frame has no slot of field 1.
    pub one: Option<Pair>,
    /// The pair of CC3 in field 2; None where the frame has no slot of field 2.
    pub two: Option<Pair>,
    /// The service blocks of the frame's caption channel packet, in ascending order of service (CTA-708-E).
    pub blocks: ArrayVec<u8, 35>,
}

impl FrameBytes {
    /// A frame without captions: the null pair in each field that has a slot there (CTA-608-E), and no service block.
    pub fn silent(rate: Rate, frame: u32) -> FrameBytes
        ensures { result ≡ silent_frame rate frame }
    {
        FrameBytes {
            one: silent_pair(rate, Chan::Cc1, frame),
            two: silent_pair(rate, Chan::Cc3, frame),
            blocks: ArrayVec::new(),
        }
    }
}

/// The null pair of a channel's field, where a frame has a slot of it.
fn silent_pair(rate: Rate, channel: Chan, frame: u32) -> Option<Pair>
    ensures { result ≡ silent_pair rate channel frame }
{
    if Cadence::of(rate, channel).has_slot_in(frame) {
        Some(NULL_PAIR)
    } else {
        None
    }
}

/// Frames, given one after another. None is stored, and giving them takes no memory.
pub trait Frames {
    ghost use Rattle.frame_scheduler.specs.Columns.{Columns};

    /// How many are still to be given.
    ghost left: { Self → ℕ };
    /// They are these columns, of which this frame is next.
    ghost Gives: { Columns → ℕ → Self → Type 0 };

    /// What the next frame carries; None exactly after the last one.
    fn next(&mut self) -> Option<FrameBytes>
        ensures left { MatchOption result (left self.old ≡ 0)
            (λ _. left self.new + 1 ≡ left self.old) }
        ensures ends { IfNone result (left self.new ≡ 0) }
        ensures gives { (columns : Columns) (frame : ℕ) → Gives columns frame self.old
            → IfSome result (λ bytes. (bytes ≡ columns frame)
            × Gives columns (frame + 1) self.new) };
}

/// The frames of a cue list in order, in which every unit stands in its earliest placement. No frame is stored.
#[derive(Drop)]
pub struct Plan {
    lanes: [PlacedField; 2],
    services: Vec<PlacedService>,
    rate: Rate,
    frame: u32,
    left: u32,
    ghost counted: { frame + left < 2 ^ 32 },
    ghost within: { All (λ lane. left + lane.slot < 2 ^ 32) lanes },
    ghost services_within: { All (HasLeft left) services.items },
    ghost numbered: { All IsNumbered services.items },
    ghost room: { blocks_room services.items ≤ 35 },
}

impl Plan {
    /// A plan of the lanes of field 1 and field 2 and of services, of this many frames at a rate.
    pub fn new(
        one: PlacedField,
        two: PlacedField,
        services: Vec<PlacedService>,
        rate: Rate,
        frames: u32,
    ) -> Plan
        requires at_one { one.slot ≡ 0 }
        requires at_two { two.slot ≡ 0 }
        requires at_first { All (λ planned. planned.frame ≡ 0) services.items }
        requires numbered { All IsNumbered services.items }
        requires room { blocks_room services.items ≤ 35 }
        ensures lanes { result.lanes ≡ one ∷ two ∷ [] }
        ensures services { result.services.items ≡ services.items }
        ensures rate { result.rate ≡ rate }
        ensures frame { result.frame ≡ 0 }
        ensures left { result.left ≡ frames }
    {
        Plan {
            lanes: [one, two],
            services,
            rate,
            frame: 0,
            left: frames,
        }
    }
}

impl Frames for Plan {
    ghost use Rattle.frame_scheduler.specs.Frames.{GivesFrom, frames_left};

    ghost left = { frames_left };

    ghost Gives = { GivesFrom };

    fn next(&mut self) -> Option<FrameBytes> {
        if self.left == 0 {
            return None;
        }
        let frame = self.frame;
        self.left -= 1;
        self.frame += 1;
        let one = Cadence::of(self.rate, Chan::Cc1);
        let two = Cadence::of(self.rate, Chan::Cc3);
        Some(FrameBytes {
            one: next_pair(&mut self.lanes, 0, one, frame),
            two: next_pair(&mut self.lanes, 1, two, frame),
            blocks: next_blocks(&mut self.services),
        })
    }
}

/// The pair of a frame in one of the lanes, where the frame has a slot.
fn next_pair(
    lanes: &mut [PlacedField; 2],
    index: usize,
    cadence: Cadence,
    frame: u32,
) -> Option<Pair>
    requires index { index < 2 }
    requires within { (lane : PlannedField) → slice_get lanes.old index ≡ Some lane
        → lane.slot + 1 < 2 ^ 32 }
    ensures { (lane : PlannedField) → slice_get lanes.old index ≡ Some lane
        → (result ≡ given_in cadence frame lane)
        × (lanes.new ≡ slice_set lanes.old index (behind_frame cadence frame lane)) }
{
    if cadence.has_slot_in(frame) {
        Some(lanes[index].next())
    } else {
        None
    }
}
