ghost use Rattle.cc_base.specs.Streams.{PutCause, Puts};
ghost use Rattle.frame_carrier.specs.Framing.{Framing, HasFraming};
ghost use Rattle.command_base.specs.Realises.{RealisesAlone};
ghost use Rattle.cue_list_commands.specs.ListVerdict.{PairsVerdict};
ghost use Rattle.command_base.specs.Ends.{ends};
ghost use Rattle.cue_list_commands.specs.Output.{lines_of};

use crate::accept::read_programme;
use crate::lines::line_of;
use cc_base::{Put, Sink, Source};
use command_base::Status;
use frame_carrier::{Frames, Programme};
use std::alloc::Global;
use text_output::Gathered;

/// Reads a cue list, and puts one line a frame with the pairs of both fields.
pub fn run_pairs<M: Source, O: Sink>(alloc: Global, input: &mut M, out: &mut O) -> Status
    ensures { RealisesAlone PairsVerdict
        (ends (M.left input.old) (M.faults input.old) (O.written out.old) (O.faults out.old))
        (ends (M.left input.new) (M.faults input.new) (O.written out.new)
        (O.faults out.new)) result }
{
    match read_programme(alloc, input) {
        Ok(programme) => match put_lines(programme, out) {
            Put::Done => Status::Ok,
            Put::Failed => Status::WriteFault,
        },
        Err(status) => status,
    }
}

/// Puts the lines of a programme: the pairs of both fields, frame by frame.
fn put_lines<F: Frames + Drop, O: Sink>(programme: Programme<F>, out: &mut O) -> Put
    ensures bytes { (framing : Framing) → HasFraming F.left F.Gives framing programme
        → Puts (O.written out.old) (O.written out.new) result (lines_of framing) }
    ensures cause { PutCause (O.faults out.old) (O.faults out.new) result }
{
    let mut text = Gathered::new();
    let mut frames = programme.frames;
    while let Some(pairs) = frames.next() {
        match text.add(&line_of(pairs.one, pairs.two), out) {
            Put::Done => {}
            Put::Failed => return Put::Failed,
        }
    }
    text.flush(out)
}
