ghost use Rattle.std.specs.Prelude.{◌≡◌, ◌≤◌, IfOk, IfSome, length, true};
ghost use Rattle.cc_base.specs.Streams.{PutCause, Puts, whole_limit};
ghost use Rattle.command_base.specs.Ends.{ends};
ghost use Rattle.command_base.specs.Realises.{RealisesAlone};
ghost use Rattle.command_base.specs.WholeInput.{JudgesInput};
ghost use Rattle.scc_files.specs.Reading.{frames_of};
ghost use Rattle.scc_commands.specs.Import.{ImportVerdict, IsImport, IsRefusedImport, ReadsImport, import_words, most_import_frames, opening_of};
ghost use Rattle.time_codes.specs.TimeCodes.{is_time_code};
ghost use Rattle.scc_commands.specs.ImportSteps.{ArePlaced, fault_status, frame_with};

use crate::cursor::Cursor;
use arrayvec::ArrayVec;
use cc_base::{Put, Rate, Sink, Source};
use command_base::{Place, Status, read_input};
use frame_carrier::{Carrier, FrameBytes};
use line21_codes::{NULL_PAIR, Pair};
use scc_files::{SccFault, SccPairs, read_scc};
use std::alloc::Global;
use text_output::Gathered;
use time_codes::{TimeCode, frame_of};

/// Reads an SCC file to its end and judges it, and then puts the ancillary packets of its frames, gathered so that a put has many:
/// at 29.97 frames a second, from that of `time` to that of the last pair, each with the pair at the frame in field 1 and the null pair
/// in field 2. Without `time` the first frame is that of the first time code; a frame of the day must have a given one. A file without
/// pairs has no frames.
///
/// Malformed comes exactly at the file's first offence, Limit (Bytes) where it has more than 67,108,864 bytes, and Limit
/// (Frames) where it has more than 2,592,000 frames; then nothing is put. A first time code before `time` is Backwards.
pub fn run_import<M: Source, O: Sink>(
    alloc: Global,
    time: Option<TimeCode>,
    input: &mut M,
    out: &mut O,
) -> Status
    requires { IfSome time (λ t. is_time_code t ≡ true) }
    ensures { RealisesAlone (ImportVerdict time)
        (ends (M.left input.old) (M.faults input.old) (O.written out.old) (O.faults out.old))
        (ends (M.left input.new) (M.faults input.new) (O.written out.new)
        (O.faults out.new)) result }
{
    match read_pairs(alloc, opening_of(time), input) {
        Ok(pairs) => match put_words(pairs, out) {
            Put::Done => Status::Ok,
            Put::Failed => Status::WriteFault,
        },
        Err(status) => status,
    }
}

/// The frame of the day of a time code, which a frame of the day must have.
fn opening_of(time: Option<TimeCode>) -> Option<u32>
    requires { IfSome time (λ t. is_time_code t ≡ true) }
    ensures { result ≡ opening_of time }
{
    match time {
        Some(time) => frame_of(time).ok(),
        None => None,
    }
}

/// Reads an SCC file, whose frame 0 is at `opening` or at its first time code, to its end and judges it. Gives its pairs, or the status
/// with which it is refused.
fn read_pairs<M: Source>(
    alloc: Global,
    opening: Option<u32>,
    input: &mut M,
) -> Result<SccPairs, Status>
    ensures reads { ReadsImport opening (M.left input.old) (M.left input.new) (M.faults input.old)
        (M.faults input.new) result }
    ensures placed { IfOk result ArePlaced }
{
    let bytes = read_input(alloc, input)?;
    judge(alloc, opening, &bytes)
}

/// Judges the bytes of an SCC file.
fn judge(alloc: Global, opening: Option<u32>, bytes: &[u8]) -> Result<SccPairs, Status>
    requires { length bytes.now ≤ whole_limit }
    ensures { JudgesInput (IsImport opening) (IsRefusedImport opening) bytes.now result }
{
    match read_scc(alloc, opening, bytes) {
        Ok(pairs) => Ok(pairs),
        Err(fault) => Err(status_of(fault)),
    }
}

/// The status of a file that isn't read.
fn status_of(fault: SccFault) -> Status
    ensures { result ≡ fault_status fault }
{
    match fault {
        SccFault::Memory(_) => Status::Memory,
        SccFault::Limit(which) => Status::Limit(which),
        SccFault::Malformed(refusal) => Status::Malformed(Place::Byte(refusal.place), refusal.why),
    }
}

/// How many frames pairs take: the frames up to the last one's.
fn count_frames(pairs: &[(u32, Pair)]) -> u32
    requires { frames_of pairs.now ≤ most_import_frames }
    ensures { result ≡ frames_of pairs.now }
{
    match pairs.split_last() {
        Some((placed, _)) => placed.0 + 1,
        None => 0,
    }
}

/// What a frame carries with this pair in field 1, and the null pair in field 2.
fn frame_with(pair: Pair) -> FrameBytes
    ensures { result ≡ frame_with pair }
{
    FrameBytes {
        one: Some(pair),
        two: Some(NULL_PAIR),
        blocks: ArrayVec::new(),
    }
}

/// Puts the words of an SCC file's pairs.
fn put_words<O: Sink>(pairs: SccPairs, out: &mut O) -> Put
    requires { ArePlaced pairs }
    ensures bytes { Puts (O.written out.old) (O.written out.new) result (import_words pairs) }
    ensures cause { PutCause (O.faults out.old) (O.faults out.new) result }
{
    put_frames(pairs.as_slice(), out)
}

/// Puts the ancillary packets of the frames of pairs, gathered.
fn put_frames<O: Sink>(pairs: &[(u32, Pair)], out: &mut O) -> Put
    requires { ArePlaced pairs.now }
    ensures bytes { Puts (O.written out.old) (O.written out.new) result (import_words pairs.now) }
    ensures cause { PutCause (O.faults out.old) (O.faults out.new) result }
{
    let mut cursor = Cursor::new(pairs);
    let mut carrier = Carrier::new(Rate::F2997);
    let mut gathered = Gathered::new();
    for frame in 0..count_frames(pairs) {
        let mut words = ArrayVec::new();
        carrier.put_words(&frame_with(cursor.pass(frame)), &mut words);
        match gathered.add(&words, out) {
            Put::Done => {}
            Put::Failed => return Put::Failed,
        }
    }
    gathered.flush(out)
}
