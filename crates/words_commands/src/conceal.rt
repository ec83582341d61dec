ghost use Rattle.command_base.specs.Ends.{ends};
ghost use Rattle.words_commands.specs.ConcealedScreens.{next_concealed};
ghost use Rattle.words_commands.specs.Verdicts.{ChangesVerdict};
ghost use Rattle.command_base.specs.Realises.{RealisesLeaving};

use crate::concealing::Concealing;
use crate::count::put_count;
use cc_base::{Put, Sink, Source};
use cc_conceal::Concealer;
use command_base::Status;
use grid_print::Shown;
use std::alloc::Global;
use words_reading::read_words;

/// Reads a words file from which frames may be missing, or in which bytes of line 21 have bad parity. Puts of each frame how many are
/// missing before it, if some are, and the screens that changed, with the number of the frame by the counters. After the last one it
/// puts the number of frames that came.
pub fn run_conceal<M: Source, O: Sink>(alloc: Global, input: &mut M, out: &mut O) -> Status
    ensures { RealisesLeaving (ChangesVerdict next_concealed)
        (ends (M.left input.old) (M.faults input.old) (O.written out.old) (O.faults out.old))
        (ends (M.left input.new) (M.faults input.new) (O.written out.new)
        (O.faults out.new)) result }
{
    let Ok(shown) = Shown::new(alloc) else {
        return Status::Memory;
    };
    let Ok(concealer) = Concealer::new(alloc) else {
        return Status::Memory;
    };
    let mut concealing = Concealing { concealer, shown };
    match read_words(&mut concealing, input, out) {
        Ok(()) => match put_count(concealing.concealer.frames(), out) {
            Put::Done => Status::Ok,
            Put::Failed => Status::WriteFault,
        },
        Err(stop) => stop.plain_status(),
    }
}
