ghost use Rattle.std.specs.Prelude.{◌≡◌, ◌-◌, ◌^◌, ◌+◌, ◌<◌, ◌≤◌, max, MatchResult, IfOk, IfErr, IfSome, Ok, Err, true};
ghost use Rattle.scc_files.specs.Reading.{at_first, frame_of_text, step, timed};
ghost use Rattle.scc_files.specs.Phases.{HasNumbersInRange};

use crate::phase::Phase;
use cc_base::Why;
use line21_codes::Pair;
use time_codes::{frame_of, read_time_bytes};

/// What offends: the byte this many bytes before the last one, and the reason.
#[derive(Clone, Copy)]
pub struct Offence {
    /// How many bytes before the last one.
    pub back: u8,
    /// The reason.
    pub why: Why,
}

/// Where pairs stand.
#[derive(Clone, Copy)]
pub struct Position {
    /// The frame of the day of frame 0: the given one, or that of the first time code.
    pub start: Option<u32>,
    /// The frame of the day before which the next time code doesn't stand: that of the last one, or of frame 0 where it is given.
    pub last: u32,
    /// The frame of the next pair, counted from frame 0.
    pub next: u32,
}

/// Where bytes read so far have ended, and where the next pair stands.
#[derive(Clone, Copy)]
pub struct Reader {
    /// Where they have ended within the form.
    pub phase: Phase,
    /// Where the next pair stands.
    pub position: Position,
}

/// The frame of the day of a time code's text; None where no frame has it.
fn frame_of_text(text: &[u8]) -> Option<u32>
    ensures frame { result ≡ frame_of_text text.now }
    ensures small { IfSome result (λ frame. frame < 2592000) }
{
    frame_of(read_time_bytes(text)?).ok()
}

impl Position {
    /// Begins a line with this text of a time code.
    fn begin_line(&mut self, text: &[u8]) -> Result<(), Offence>
        ensures begins { MatchResult result
            (λ _. timed self.old (frame_of_text text.now) ≡ Ok self.new)
            (λ offence. timed self.old (frame_of_text text.now) ≡ Err offence) }
        ensures next { IfOk result (λ _. self.new.next ≤ max 2592000 self.old.next) }
        ensures back { IfErr result (λ offence. offence.back ≤ 10) }
    {
        let Some(frame) = frame_of_text(text) else {
            return Err(Offence {
                back: 10,
                why: Why::NoSuchTime,
            });
        };
        if frame < self.last {
            return Err(Offence {
                back: 10,
                why: Why::Backwards,
            });
        }
        let start = self.start.unwrap_or(frame);
        self.start = Some(start);
        self.last = frame;
        self.next = frame.saturating_sub(start).max(self.next);
        Ok(())
    }
}

impl Reader {
    /// A reader of no bytes, of a file whose frame 0 is at this frame of the day, or at the first line's time code.
    pub fn new(opening: Option<u32>) -> Reader
        ensures { result ≡ at_first opening }
    {
        let position = Position {
            start: opening,
            last: opening.unwrap_or(0),
            next: 0,
        };
        Reader {
            phase: Phase::First(0),
            position,
        }
    }

    /// Takes a byte: the pair at its frame that it makes whole, if it makes one whole.
    pub fn step(&mut self, byte: u8) -> Result<Option<(u32, Pair)>, Offence>
        requires within { HasNumbersInRange self.old.phase }
        requires room { self.old.position.next < 2 ^ 32 - 1 }
        ensures steps { MatchResult result (λ given. step true self.old byte ≡ Ok (self.new, given))
            (λ offence. step true self.old byte ≡ Err offence) }
        ensures within { IfOk result (λ _. HasNumbersInRange self.new.phase) }
        ensures next { IfOk result
            (λ _. self.new.position.next ≤ max 2592000 (self.old.position.next + 1)) }
        ensures last { IfOk result
            (λ given. IfSome given (λ placed. self.new.position.next ≡ placed.0 + 1)) }
        ensures back { IfErr result (λ offence. offence.back ≤ 10) }
    {
        let Some(phase) = self.phase.moved(byte) else {
            return Err(Offence {
                back: 0,
                why: self.phase.why(),
            });
        };
        let mut given = None;
        match phase {
            Phase::Timed(text) => {
                if let Err(offence) = self.position.begin_line(&text) {
                    return Err(offence);
                }
            }
            Phase::Whole(pair) => {
                given = Some((self.position.next, pair));
                self.position.next += 1;
            }
            _ => {}
        }
        self.phase = phase;
        Ok(given)
    }
}
