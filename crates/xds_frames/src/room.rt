ghost use Rattle.std.specs.Prelude.{◌≡◌, ◌≤◌, ◌-◌, ◌^◌};
ghost use Rattle.frame_carrier.specs.Columns.{Columns};
ghost use Rattle.cue_lists.specs.Cadences.{slot_frame, slot_from};
ghost use Rattle.xds_frames.specs.Packets.{HasPairs, IsLaying, Laying, frames_last, free_at};
ghost use Rattle.xds_packets.specs.Places.{LacksRoom};

use crate::packets::Packets;
use frame_carrier::Frames;

/// The number, from 1, of the first packet whose end pair finds no free slot in these frames; None where each finds one. After it the
/// packets begin anew.
pub fn first_without_room<F: Frames + Drop>(frames: F, packets: &mut Packets) -> Option<u32>
    requires { F.left frames ≤ frames_last packets.old }
    ensures room { (columns : Columns) (laying : Laying) → F.Gives columns 0 frames
        → HasPairs laying columns → IsLaying laying 0 packets.old
        → LacksRoom (free_at laying) (slot_frame laying.cadence) laying.listed
        (slot_from laying.cadence (F.left frames)) result }
    ensures again { (columns : Columns) (laying : Laying) → F.Gives columns 0 frames
        → HasPairs laying columns → IsLaying laying 0 packets.old
        → IsLaying laying 0 packets.new }
    ensures last { frames_last packets.new ≡ 2 ^ 32 - 1 }
{
    let mut frames = frames;
    while let Some(bytes) = frames.next() {
        packets.lay_on(bytes);
    }
    let lacking = packets.unfinished();
    packets.restart();
    lacking
}
