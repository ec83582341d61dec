ghost use Rattle.std.specs.Prelude.{◌≡◌, true};
ghost use Rattle.command_base.specs.Ends.{ends};
ghost use Rattle.time_codes.specs.TimeCodes.{is_time_code};
ghost use Rattle.scc_commands.specs.Export.{ExportVerdict};
ghost use Rattle.command_base.specs.Realises.{RealisesLeaving};

use crate::exporting::Exporting;
use cc_base::{Put, Sink, Source};
use command_base::Status;
use scc_files::{HEAD, SccWriter};
use std::alloc::Global;
use time_codes::TimeCode;
use words_reading::{Frames, read_words};

/// Reads a words file, and puts the SCC file of its field 1 pairs, whose frame 0 has this time code, which a frame of the day must
/// have. What one take gave is judged, and its text put, before the next take.
///
/// Differs comes at the first frame whose rate isn't 29.97 frames a second, or which has more than one pair of field 1. Limit (Day)
/// comes at the first frame at or past the end of the day with a pair that isn't null; Malformed at the first offending word, or where
/// the file is cut short. Then the text of the frames before was put.
pub fn run_export<M: Source, O: Sink>(
    alloc: Global,
    time: TimeCode,
    input: &mut M,
    out: &mut O,
) -> Status
    requires { is_time_code time ≡ true }
    ensures { RealisesLeaving (ExportVerdict time)
        (ends (M.left input.old) (M.faults input.old) (O.written out.old) (O.faults out.old))
        (ends (M.left input.new) (M.faults input.new) (O.written out.new)
        (O.faults out.new)) result }
{
    let writer = SccWriter::new(time);
    let Ok(mut frames) = Frames::new(alloc, Exporting { writer }) else {
        return Status::Memory;
    };
    match out.put(HEAD) {
        Put::Done => {}
        Put::Failed => return Status::WriteFault,
    }
    match read_words(&mut frames, input, out) {
        Ok(()) => match out.put(frames.maker.writer.ending()) {
            Put::Done => Status::Ok,
            Put::Failed => Status::WriteFault,
        },
        Err(stop) => stop.status(),
    }
}
