ghost use Rattle.std.specs.Prelude.{◌≡◌};
ghost use Rattle.command_base.specs.Ends.{ends};
ghost use Rattle.command_base.specs.SideEnds.{side_ends};
ghost use Rattle.command_base.specs.Realises.{AwaitsSide, Realises};
ghost use Rattle.cue_list_commands.specs.Accepted.{IsGoodList};
ghost use Rattle.dual_commands.specs.DualVerdict.{DualVerdict};
ghost use Rattle.dual_commands.specs.DualStatus.{fault_status};

use cc_base::{Put, Sink, Source, Why};
use command_base::{Place, Status};
use cue_list_commands::{Programme, put_words, read_list};
use cue_lists::RuleFault;
use dual_plans::{DualFault, plan_dual};
use std::alloc::Global;

/// Reads a second cue list from a side file and judges it, then a first one from the input. Puts the ancillary packets of the
/// frames of both, gathered so that a put has many: the first list on CC1, CC3 and its services, the second on CC2 and CC4.
///
/// Where both keep the rules, the lists are refused in this order: Malformed (OtherList) if the second has another rate, another
/// number of frames or a share; Rule (FieldClash) if events of both hold one slot of a field. Then comes NoRoom if a cue of the
/// first has no placement beside the second's events, and NoRoomBeside if one of the second has none beside the first.
pub fn run_dual<M: Source, S: Source, O: Sink>(
    alloc: Global,
    input: &mut M,
    side: &mut S,
    out: &mut O,
) -> Status
    ensures answer { Realises DualVerdict (side_ends (S.left side.old) (S.faults side.old))
        (side_ends (S.left side.new) (S.faults side.new))
        (ends (M.left input.old) (M.faults input.old) (O.written out.old) (O.faults out.old))
        (ends (M.left input.new) (M.faults input.new) (O.written out.new)
        (O.faults out.new)) result }
    ensures untouched { AwaitsSide IsGoodList (side_ends (S.left side.old) (S.faults side.old))
        (ends (M.left input.old) (M.faults input.old) (O.written out.old) (O.faults out.old))
        (ends (M.left input.new) (M.faults input.new) (O.written out.new) (O.faults out.new)) }
{
    let second = match read_list(alloc, side) {
        Ok(second) => second,
        Err(status) => return status,
    };
    let first = match read_list(alloc, input) {
        Ok(first) => first,
        Err(status) => return status,
    };
    let rate = first.rate();
    match plan_dual(alloc, &first, &second) {
        Ok(frames) => match put_words(Programme { rate, frames }, out) {
            Put::Done => Status::Ok,
            Put::Failed => Status::WriteFault,
        },
        Err(fault) => status_of(fault),
    }
}

/// The status of two lists that have no plan together.
fn status_of(fault: DualFault) -> Status
    ensures { result ≡ fault_status fault }
{
    match fault {
        DualFault::Memory(_) => Status::Memory,
        DualFault::OtherList { rec, field } => Status::Malformed(
            Place::Field { rec, field },
            Why::OtherList,
        ),
        DualFault::FieldClash { second, first } => Status::Rule(RuleFault {
            why: Why::FieldClash,
            cue: second,
            other: Some(first),
        }),
        DualFault::NoRoom(cue) => Status::NoRoom(cue),
        DualFault::NoRoomBeside(cue) => Status::NoRoomBeside(cue),
    }
}
