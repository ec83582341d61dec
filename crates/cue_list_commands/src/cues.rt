ghost use Rattle.command_base.specs.Realises.{RealisesAlone};
ghost use Rattle.cue_list_commands.specs.ListVerdict.{CuesVerdict};
ghost use Rattle.command_base.specs.Ends.{ends};

use crate::accept::read_list;
use cc_base::{Put, Sink, Source};
use command_base::Status;
use cue_lists::print;
use std::alloc::Global;

/// Reads a cue list, tries its form and its rules, and puts it as it is written. Its room isn't tried.
pub fn run_cues<M: Source, O: Sink>(alloc: Global, input: &mut M, out: &mut O) -> Status
    ensures { RealisesAlone CuesVerdict
        (ends (M.left input.old) (M.faults input.old) (O.written out.old) (O.faults out.old))
        (ends (M.left input.new) (M.faults input.new) (O.written out.new)
        (O.faults out.new)) result }
{
    let list = match read_list(alloc, input) {
        Ok(list) => list,
        Err(status) => return status,
    };
    let Ok(text) = print(alloc, &list) else {
        return Status::Memory;
    };
    match out.put(&text) {
        Put::Done => Status::Ok,
        Put::Failed => Status::WriteFault,
    }
}
