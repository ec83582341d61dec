ghost use Rattle.command_base.specs.Ends.{ends};
ghost use Rattle.convert_commands.specs.ConvertVerdict.{ConvertVerdict};
ghost use Rattle.command_base.specs.Realises.{RealisesLeaving};

use crate::converting::Converting;
use cc_base::{Sink, Source};
use command_base::Status;
use rate_convert::Converter;
use std::alloc::Global;
use words_reading::read_words;

/// Reads a words file at 29.97 frames a second, and puts the words file at 59.94 that it becomes: two frames for each. What one take gave is
/// judged, and its words put, before the next take.
///
/// Misfit comes at the first frame that can't be converted, or after which something else would be seen; Malformed at the first offending
/// word, or where the file is cut short. Then the words of the frames before were put.
pub fn run_convert<M: Source, O: Sink>(alloc: Global, input: &mut M, out: &mut O) -> Status
    ensures { RealisesLeaving ConvertVerdict
        (ends (M.left input.old) (M.faults input.old) (O.written out.old) (O.faults out.old))
        (ends (M.left input.new) (M.faults input.new) (O.written out.new)
        (O.faults out.new)) result }
{
    let Ok(converter) = Converter::new(alloc) else {
        return Status::Memory;
    };
    let mut converting = Converting { converter };
    match read_words(&mut converting, input, out) {
        Ok(()) => Status::Ok,
        Err(stop) => stop.status(),
    }
}
