ghost use Rattle.std.specs.Prelude.{◌≡◌, ◌≤◌};
ghost use Rattle.command_base.specs.Ends.{ends};
ghost use Rattle.command_base.specs.SideEnds.{side_ends};
ghost use Rattle.command_base.specs.Realises.{AwaitsSide, Realises};
ghost use Rattle.cue_fit.specs.Fitted.{most_late};
ghost use Rattle.cue_list_commands.specs.Accepted.{IsGoodList};
ghost use Rattle.fit_commands.specs.FitBesideStatus.{misfit_status};
ghost use Rattle.fit_commands.specs.FitBesideVerdict.{FitBesideVerdict};

use cc_base::{Put, Sink, Source, Why};
use command_base::{Place, Status};
use cue_list_commands::read_list;
use cue_lists::print;
use dual_fit::{FitFault, fit_beside};
use std::alloc::Global;

/// Reads a first cue list from a side file and judges it, then a second one from the input; shows each cue of the second in the first
/// frame from its SHOW on, at most this many frames late, 0 to 1,000, in which it may be beside the first list; and puts the second
/// list as it is written.
///
/// Where both keep the rules, the lists are refused, in this order: Malformed (OtherList) where the second has another rate, another
/// number of frames or a share; NoRoomBeside where a cue of the first has no placement by itself; NoRoom where a cue of the second
/// can't be shown so.
pub fn run_fit_beside<M: Source, S: Source, O: Sink>(
    alloc: Global,
    late: u32,
    input: &mut M,
    side: &mut S,
    out: &mut O,
) -> Status
    requires { late ≤ most_late }
    ensures answer { Realises (FitBesideVerdict late)
        (side_ends (S.left side.old) (S.faults side.old))
        (side_ends (S.left side.new) (S.faults side.new))
        (ends (M.left input.old) (M.faults input.old) (O.written out.old) (O.faults out.old))
        (ends (M.left input.new) (M.faults input.new) (O.written out.new)
        (O.faults out.new)) result }
    ensures untouched { AwaitsSide IsGoodList (side_ends (S.left side.old) (S.faults side.old))
        (ends (M.left input.old) (M.faults input.old) (O.written out.old) (O.faults out.old))
        (ends (M.left input.new) (M.faults input.new) (O.written out.new) (O.faults out.new)) }
{
    let first = match read_list(alloc, side) {
        Ok(first) => first,
        Err(status) => return status,
    };
    let second = match read_list(alloc, input) {
        Ok(second) => second,
        Err(status) => return status,
    };
    let fitted = match fit_beside(alloc, &first, &second, late) {
        Ok(fitted) => fitted,
        Err(fault) => return status_of(fault),
    };
    let Ok(text) = print(alloc, &fitted) else {
        return Status::Memory;
    };
    match out.put(&text) {
        Put::Done => Status::Ok,
        Put::Failed => Status::WriteFault,
    }
}

/// The status of a second list that can't be fitted.
fn status_of(fault: FitFault) -> Status
    ensures { result ≡ misfit_status fault }
{
    match fault {
        FitFault::Memory(_) => Status::Memory,
        FitFault::OtherList { rec, field } => Status::Malformed(
            Place::Field { rec, field },
            Why::OtherList,
        ),
        FitFault::NoRoomBeside(cue) => Status::NoRoomBeside(cue),
        FitFault::NoRoom(cue) => Status::NoRoom(cue),
    }
}
