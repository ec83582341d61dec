ghost use Rattle.std.specs.Prelude.{◌≡◌};
ghost use Rattle.command_base.specs.Ends.{ends};
ghost use Rattle.command_base.specs.SideEnds.{side_ends};
ghost use Rattle.command_base.specs.Realises.{AwaitsSide, Realises};
ghost use Rattle.xds_commands.specs.PacketLists.{IsGoodPackets};
ghost use Rattle.xds_commands.specs.XdsVerdict.{XdsVerdict};
ghost use Rattle.xds_commands.specs.XdsStatus.{fault_status};

use crate::packet_list::read_packets;
use cc_base::{Put, Sink, Source};
use command_base::Status;
use cue_list_commands::{Programme, put_words, read_list};
use std::alloc::Global;
use xds_frames::{XdsPlanFault, plan_xds};

/// Reads a list of packets from a side file and judges it, then a cue list from the input. Puts the ancillary packets of the frames of the
/// cue list, gathered so that a put has many, with the packets in the slots of field 2 that its captions leave free.
///
/// Where both are good, they are refused, in this order: NoRoom where a cue has no placement; NoXdsRoom where the end pair of a packet
/// finds no free slot in the list's frames.
pub fn run_xds<M: Source, S: Source, O: Sink>(
    alloc: Global,
    input: &mut M,
    side: &mut S,
    out: &mut O,
) -> Status
    ensures answer { Realises XdsVerdict (side_ends (S.left side.old) (S.faults side.old))
        (side_ends (S.left side.new) (S.faults side.new))
        (ends (M.left input.old) (M.faults input.old) (O.written out.old) (O.faults out.old))
        (ends (M.left input.new) (M.faults input.new) (O.written out.new)
        (O.faults out.new)) result }
    ensures untouched { AwaitsSide IsGoodPackets (side_ends (S.left side.old) (S.faults side.old))
        (ends (M.left input.old) (M.faults input.old) (O.written out.old) (O.faults out.old))
        (ends (M.left input.new) (M.faults input.new) (O.written out.new) (O.faults out.new)) }
{
    let packets = match read_packets(alloc, side) {
        Ok(packets) => packets,
        Err(status) => return status,
    };
    let list = match read_list(alloc, input) {
        Ok(list) => list,
        Err(status) => return status,
    };
    let rate = list.rate();
    match plan_xds(alloc, &list, packets) {
        Ok(frames) => match put_words(Programme { rate, frames }, out) {
            Put::Done => Status::Ok,
            Put::Failed => Status::WriteFault,
        },
        Err(fault) => status_of(fault),
    }
}

/// The status of a cue list and packets that have no plan.
fn status_of(fault: XdsPlanFault) -> Status
    ensures { result ≡ fault_status fault }
{
    match fault {
        XdsPlanFault::Memory(_) => Status::Memory,
        XdsPlanFault::NoRoom(cue) => Status::NoRoom(cue),
        XdsPlanFault::NoXdsRoom(packet) => Status::NoXdsRoom(packet),
    }
}
