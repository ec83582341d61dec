ghost use Rattle.std.specs.Prelude.{◌≤◌};
ghost use Rattle.command_base.specs.Ends.{ends};
ghost use Rattle.command_base.specs.Realises.{RealisesAlone};
ghost use Rattle.cue_fit.specs.Fitted.{most_late};
ghost use Rattle.fit_commands.specs.FitVerdict.{FitVerdict};

use cc_base::{Put, Sink, Source};
use command_base::Status;
use cue_fit::{PlanFault, fit};
use cue_list_commands::read_list;
use cue_lists::print;
use std::alloc::Global;

/// Reads a cue list, tries its form and its rules, shows each cue in the first frame from its SHOW on in which it may be, and puts
/// the list as it is written. NoRoom names the first cue for which none of the frames from its SHOW on will do, at most this many after it,
/// 0 to 1,000.
pub fn run_fit<M: Source, O: Sink>(alloc: Global, late: u32, input: &mut M, out: &mut O) -> Status
    requires { late ≤ most_late }
    ensures { RealisesAlone (FitVerdict late)
        (ends (M.left input.old) (M.faults input.old) (O.written out.old) (O.faults out.old))
        (ends (M.left input.new) (M.faults input.new) (O.written out.new)
        (O.faults out.new)) result }
{
    let list = match read_list(alloc, input) {
        Ok(list) => list,
        Err(status) => return status,
    };
    let fitted = match fit(alloc, &list, late) {
        Ok(fitted) => fitted,
        Err(PlanFault::NoRoom(cue)) => return Status::NoRoom(cue),
        Err(PlanFault::Memory(_)) => return Status::Memory,
    };
    let Ok(text) = print(alloc, &fitted) else {
        return Status::Memory;
    };
    match out.put(&text) {
        Put::Done => Status::Ok,
        Put::Failed => Status::WriteFault,
    }
}
