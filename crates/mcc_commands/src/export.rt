ghost use Rattle.std.specs.Prelude.{◌≡◌, true};
ghost use Rattle.command_base.specs.Ends.{ends};
ghost use Rattle.command_base.specs.Realises.{RealisesLeaving};
ghost use Rattle.time_codes.specs.Countings.{is_time_code_in};
ghost use Rattle.mcc_commands.specs.ExportMcc.{ExportMccVerdict, start_at};

use crate::exporting::Exporting;
use crate::start::Start;
use arrayvec::ArrayVec;
use cc_base::{Put, Sink, Source};
use command_base::Status;
use mcc_files::head;
use std::alloc::Global;
use time_codes::{Counting, TimeCode, frame_in};
use words_reading::read_words;

/// Reads a words file, and puts the MCC file of all its packets, whose time codes count so and whose frame 0 has this one, which a frame
/// of the day must have. Its head is put first, and then what one take gave is judged, and its lines put, before the next take.
///
/// Differs comes at the first packet of captions with a rate that isn't expected: one that time codes of the count can't count, or not the
/// first packet of captions' rate. It comes too at the first other packet with a user word that isn't an 8-bit word. Limit (Day) comes at
/// the first packet of captions for which the day has no frame; Malformed at the first offending word, or where the file is cut short. Then
/// the lines of the packets before were put.
pub fn run_export_mcc<M: Source, O: Sink>(
    alloc: Global,
    count: Counting,
    time: TimeCode,
    input: &mut M,
    out: &mut O,
) -> Status
    requires { is_time_code_in count time ≡ true }
    ensures { RealisesLeaving (ExportMccVerdict (start_at count time))
        (ends (M.left input.old) (M.faults input.old) (O.written out.old) (O.faults out.old))
        (ends (M.left input.new) (M.faults input.new) (O.written out.new)
        (O.faults out.new)) result }
{
    let Ok(first) = frame_in(count, time) else {
        unreachable!();
    };
    let Ok(mut exporting) = Exporting::new(alloc, Start { count, first }) else {
        return Status::Memory;
    };
    let mut text = ArrayVec::new();
    head(count, &mut text);
    match out.put(&text) {
        Put::Done => {}
        Put::Failed => return Status::WriteFault,
    }
    match read_words(&mut exporting, input, out) {
        Ok(()) => Status::Ok,
        Err(stop) => stop.status(),
    }
}
