ghost use Rattle.std.specs.Prelude.{◌≡◌, ◌≤◌, All, IfOk, length};
ghost use Rattle.cc_base.specs.Streams.{whole_limit};
ghost use Rattle.command_base.specs.WholeInput.{JudgesInput, ReadsInput};
ghost use Rattle.xds_commands.specs.PacketLists.{IsGoodPackets, IsRefusedPackets, packets_status};
ghost use Rattle.xds_lists.specs.Form.{IsListed};

use cc_base::Source;
use command_base::{Place, Status, read_input};
use std::alloc::Global;
use xds_lists::{XdsFault, XdsList, parse_xds};

/// Reads a list of packets to its end and judges it: its bytes' number, and its form. Gives the packets, or the status with which it is
/// refused.
pub fn read_packets<S: Source>(alloc: Global, side: &mut S) -> Result<XdsList, Status>
    ensures reads { ReadsInput IsGoodPackets IsRefusedPackets (S.left side.old) (S.left side.new)
        (S.faults side.old) (S.faults side.new) result }
    ensures listed { IfOk result (λ packets. All IsListed packets) }
{
    let bytes = read_input(alloc, side)?;
    judge_packets(alloc, &bytes)
}

/// Judges the bytes of a list of packets.
fn judge_packets(alloc: Global, bytes: &[u8]) -> Result<XdsList, Status>
    requires { length bytes.now ≤ whole_limit }
    ensures { JudgesInput IsGoodPackets IsRefusedPackets bytes.now result }
{
    match parse_xds(alloc, bytes) {
        Ok(packets) => Ok(packets),
        Err(fault) => Err(status_of_packets(fault)),
    }
}

/// The status of a list of packets whose form is at fault.
fn status_of_packets(fault: XdsFault) -> Status
    ensures { result ≡ packets_status fault }
{
    match fault {
        XdsFault::Memory(_) => Status::Memory,
        XdsFault::Malformed { rec, field, why } => Status::Malformed(
            Place::Field { rec, field },
            why,
        ),
    }
}
