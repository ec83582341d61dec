ghost use Rattle.std.specs.Prelude.{◌≡◌, ◌++◌, ◌≤◌, ℕ, List, [], Option, IfOk, length};
ghost use Rattle.std.specs.Io.KnownBytes.{Appends};
ghost use Rattle.command_base.specs.Ends.{ends};
ghost use Rattle.text_output.specs.Gathered.{held_of};
ghost use Rattle.words_reading.specs.Judging.{HasGathered, HasStopped, IsReady, Judges, JudgesAndPuts, StopCause, StopsBy};
ghost use Rattle.words_reading.specs.Reading.{CountsBy, ReadsWords};

use crate::judge::{Judge, Stop};
use cc_base::{Put, Sink, Source, Took};
use text_output::Gathered;

/// The most bytes of a words file.
pub const WORDS_LIMIT: usize = 2_147_483_647;

/// The most bytes that a command takes of a words file at once. They are 250 frames of 160 bytes, as frames are at 29.97 and 30 with
/// their 20 triplets, or 400 frames of 100 bytes, as at 59.94 and 60 with 10. The takes of such a file cut no frame. One that is cut is
/// read byte by byte.
pub const TAKE: usize = 40_000;

/// Reads a words file to its end, or up to where the judge or the streams stop it. What one take gave is judged, and its text put,
/// before the next take.
pub fn read_words<J: Judge, M: Source, O: Sink>(
    judge: &mut J,
    input: &mut M,
    out: &mut O,
) -> Result<(), Stop<J::Reason>>
    requires { J.HasRead [] judge.now }
    ensures words { (given : J.Given) (start : Option (List ℕ)) (front : List ℕ)
        → J.HasJudged given [] front judge.old → Appends start (O.written out.old) front
        → ReadsWords (J.HasJudged given) (J.Says given) (J.Halts given) judge.new
        (ends (M.left input.old) (M.faults input.old) start (O.faults out.old))
        (ends (M.left input.new) (M.faults input.new) (O.written out.new)
        (O.faults out.new)) result }
    ensures counts { CountsBy (M.faults input.old) (M.faults input.new) (O.faults out.old)
        (O.faults out.new) result }
{
    let mut text = Gathered::new();
    let mut bytes = [0u8; TAKE];
    let mut room = WORDS_LIMIT;
    loop {
        match input.take(&mut bytes) {
            Took::End => match judge.end() {
                Ok(()) => return Ok(()),
                Err(refusal) => return Err(Stop::Refused(refusal)),
            },
            Took::Failed => return Err(Stop::ReadFault),
            Took::Got(count) => {
                judge_and_put(judge, &bytes[..count.min(room)], &mut text, out)?;
                if room < count {
                    return Err(Stop::Limit);
                }
                room -= count;
            }
        }
    }
}

/// Judges bytes, and puts the text that stands for them; where it stops among them, the text of what came before.
fn judge_and_put<J: Judge, O: Sink>(
    judge: &mut J,
    bytes: &[u8],
    text: &mut Gathered,
    out: &mut O,
) -> Result<(), Stop<J::Reason>>
    requires { IsReady J.HasRead judge.now (length bytes.now) }
    ensures reads { (before : List ℕ) → J.HasRead before judge.old
        → IfOk result (λ done. J.HasRead (before ++ bytes.now) judge.new) }
    ensures judges { (given : J.Given) (start : Option (List ℕ)) (before : List ℕ)
        → HasGathered (J.HasJudged given) start (O.written out.old)
        (held_of text.old) before judge.old
        → JudgesAndPuts (J.HasJudged given) (J.Says given) (J.Halts given) start (O.written out.new)
        (held_of text.new) (before ++ bytes.now) judge.new result }
    ensures none { IfOk result (λ done. held_of text.new ≡ []) }
    ensures cause { StopCause (O.faults out.old) (O.faults out.new) result }
{
    match judge_all(judge, bytes, text, out) {
        Ok(()) => match text.flush(out) {
            Put::Done => Ok(()),
            Put::Failed => Err(Stop::WriteFault),
        },
        Err(stop) => Err(put_before::<J, O>(stop, text, out)),
    }
}

/// Puts the text of what came before a stop. Gives the stop, or that the output failed.
fn put_before<J: Judge, O: Sink>(
    stop: Stop<J::Reason>,
    text: &mut Gathered,
    out: &mut O,
) -> Stop<J::Reason>
    ensures stops { (given : J.Given) (start : Option (List ℕ)) (bytes : List ℕ)
        → HasStopped (J.Says given) (J.Halts given) start (O.written out.old)
        (held_of text.old) bytes stop
        → HasStopped (J.Says given) (J.Halts given) start (O.written out.new) [] bytes result }
    ensures cause { (before : ℕ) → StopsBy before (O.faults out.old) stop
        → StopsBy before (O.faults out.new) result }
{
    match stop {
        Stop::WriteFault => Stop::WriteFault,
        _ => match text.flush(out) {
            Put::Done => stop,
            Put::Failed => Stop::WriteFault,
        },
    }
}

/// Judges bytes, and adds the text that stands for them.
fn judge_all<J: Judge, O: Sink>(
    judge: &mut J,
    bytes: &[u8],
    text: &mut Gathered,
    out: &mut O,
) -> Result<(), Stop<J::Reason>>
    requires { IsReady J.HasRead judge.now (length bytes.now) }
    ensures reads { (before : List ℕ) → J.HasRead before judge.old
        → IfOk result (λ done. J.HasRead (before ++ bytes.now) judge.new) }
    ensures judges { (given : J.Given) (start : Option (List ℕ)) (before : List ℕ)
        → HasGathered (J.HasJudged given) start (O.written out.old)
        (held_of text.old) before judge.old
        → Judges (J.HasJudged given) (J.Says given) (J.Halts given) start (O.written out.new)
        (held_of text.new) (before ++ bytes.now) judge.new result }
    ensures cause { StopCause (O.faults out.old) (O.faults out.new) result }
{
    let mut at = 0;
    while at < bytes.len() {
        at += judge.step(&bytes[at..], text, out)?;
    }
    Ok(())
}
