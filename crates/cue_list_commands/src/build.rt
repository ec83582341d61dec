ghost use Rattle.command_base.specs.Realises.{RealisesAlone};
ghost use Rattle.cue_list_commands.specs.ListVerdict.{BuildVerdict};
ghost use Rattle.command_base.specs.Ends.{ends};

use crate::accept::read_programme;
use cc_base::{Put, Sink, Source};
use command_base::Status;
use frame_carrier::put_words;
use std::alloc::Global;

/// Reads a cue list, and puts the ancillary packets of its frames, gathered so that a put has many frames'.
pub fn run_build<M: Source, O: Sink>(alloc: Global, input: &mut M, out: &mut O) -> Status
    ensures { RealisesAlone BuildVerdict
        (ends (M.left input.old) (M.faults input.old) (O.written out.old) (O.faults out.old))
        (ends (M.left input.new) (M.faults input.new) (O.written out.new)
        (O.faults out.new)) result }
{
    match read_programme(alloc, input) {
        Ok(programme) => match put_words(programme, out) {
            Put::Done => Status::Ok,
            Put::Failed => Status::WriteFault,
        },
        Err(status) => status,
    }
}
