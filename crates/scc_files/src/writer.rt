ghost use Rattle.std.specs.Prelude.{◌≡◌, ◌+◌, ◌<◌, ◌≤◌, ◌++◌, false, length, option_map, true};
ghost use Rattle.time_codes.specs.TimeCodes.{day_frames};

use crate::words::word;
use arrayvec::ArrayVec;
use cc_base::{Put, Sink};
use line21_codes::Pair;
use time_codes::{TimeCode, frame_of, time_of, time_text};

/// The first line and an empty one, with which every file that is written begins.
pub const HEAD: &[u8] = b"Scenarist_SCC V1.0\n\n";

/// The most bytes that are put of a pair: two line ends, a time code, a TAB and a word.
pub const PIECE: usize = 18;

/// Why a writer's call gave up.
#[derive(Clone, Copy, PartialEq, Eq)]
pub enum SccPut {
    /// The sink failed; its count of faults rose, and a front of what the call puts was put.
    Fault,
    /// The pair isn't null and stands at or past the end of the start's day; nothing was put.
    Day,
}

/// Writes pairs as an SCC file: the first line, and then each longest stretch of pairs on consecutive frames that aren't null as a
/// line.
#[derive(Clone, Copy)]
pub struct SccWriter {
    // the frame of the day of frame 0, and whether its day counts with drop frame
    start: u32,
    drop_frame: bool,
    // the frame after the last pair that was put
    behind: Option<u32>,
    ghost within: { start < day_frames drop_frame },
}

impl SccWriter {
    ghost use Rattle.time_codes.specs.TimeCodes.{is_time_code};
    ghost use Rattle.scc_files.specs.Writing.{BeginsWriting, FinishesWriting, GivesPiece, StandsFirst, WritesPair, end_text, piece_of, standing_of};
    ghost use Rattle.line21_codes.specs.NullPairs.{is_null};

    /// A writer of a file whose frame 0 has this time code, which a frame of the day must have. It puts nothing: it is for those
    /// who put `HEAD`, and then what `piece` and `ending` give, themselves.
    pub fn new(start: TimeCode) -> SccWriter
        requires { is_time_code start ≡ true }
        ensures { StandsFirst start result }
    {
        let Ok(frame) = frame_of(start) else {
            unreachable!();
        };
        SccWriter {
            start: frame,
            drop_frame: start.drop_frame,
            behind: None,
        }
    }

    /// Begins a file whose frame 0 has this time code, which a frame of the day must have: puts the first line and an empty one.
    pub fn begin<O: Sink>(start: TimeCode, out: &mut O) -> Result<SccWriter, SccPut>
        requires { is_time_code start ≡ true }
        ensures { BeginsWriting start (O.written out.old) (O.written out.new) (O.faults out.old)
            (O.faults out.new) result }
    {
        let writer = SccWriter::new(start);
        match out.put(HEAD) {
            Put::Done => Ok(writer),
            Put::Failed => Err(SccPut::Fault),
        }
    }

    // The piece of a pair that isn't null, of a frame of the day.
    fn pair_piece(&self, frame: u32, pair: Pair) -> ArrayVec<u8, PIECE>
        requires shown { is_null pair ≡ false }
        requires within { self.now.start + frame < day_frames self.now.drop_frame }
        ensures { result.items ≡ piece_of (standing_of self.now) frame pair }
    {
        let mut piece = ArrayVec::new();
        if self.behind == Some(frame) {
            add(b" ", &mut piece);
        } else {
            if self.behind.is_some() {
                add(b"\n\n", &mut piece);
            }
            add(
                &time_text(time_of(self.start + frame, self.drop_frame)),
                &mut piece,
            );
            add(b"\t", &mut piece);
        }
        add(&word(pair), &mut piece);
        piece
    }

    /// The text of the pair of a frame above those before: nothing of a null pair (80 80), which so ends a stretch. None exactly
    /// where the pair isn't null and its frame stands at or past the end of the start's day.
    pub fn piece(&mut self, frame: u32, pair: Pair) -> Option<ArrayVec<u8, PIECE>>
        ensures { GivesPiece (standing_of self.old) (standing_of self.new) frame pair
            (option_map (λ piece. piece.items) result) }
    {
        if pair.a == 0x80 && pair.b == 0x80 {
            return Some(ArrayVec::new());
        }
        let day = if self.drop_frame {
            2_589_408
        } else {
            2_592_000
        };
        if frame >= day - self.start {
            return None;
        }
        let piece = self.pair_piece(frame, pair);
        self.behind = Some(frame + 1);
        Some(piece)
    }

    /// Writes the pair of a frame above those before. A null pair (80 80) is left out, and so ends a stretch.
    ///
    /// Day comes exactly where the pair isn't null and its frame stands at or past the end of the start's day, and puts nothing. Fault
    /// comes only where the sink's count of faults rose, with a front of the piece put.
    pub fn pair<O: Sink>(&mut self, frame: u32, pair: Pair, out: &mut O) -> Result<(), SccPut>
        ensures { WritesPair (standing_of self.old) (standing_of self.new) frame pair
            (O.written out.old) (O.written out.new) (O.faults out.old) (O.faults out.new) result }
    {
        match self.piece(frame, pair) {
            Some(piece) => match out.put(&piece) {
                Put::Done => Ok(()),
                Put::Failed => Err(SccPut::Fault),
            },
            None => Err(SccPut::Day),
        }
    }

    /// What ends the file: the two line ends after the last stretch, if there is one.
    pub fn ending(&self) -> &'static [u8]
        ensures { result.now ≡ end_text self.now.behind }
    {
        match self.behind {
            Some(_) => b"\n\n",
            None => b"",
        }
    }

    /// Ends the file: puts the two line ends after the last stretch, if there is one.
    pub fn finish<O: Sink>(&mut self, out: &mut O) -> Result<(), SccPut>
        ensures { FinishesWriting (standing_of self.old) (O.written out.old) (O.written out.new)
            (O.faults out.old) (O.faults out.new) result }
    {
        match out.put(self.ending()) {
            Put::Done => Ok(()),
            Put::Failed => Err(SccPut::Fault),
        }
    }
}

/// Adds bytes to a piece that has room for them.
fn add(bytes: &[u8], piece: &mut ArrayVec<u8, PIECE>)
    requires { length piece.old.items + length bytes.now ≤ PIECE }
    ensures { piece.new.items ≡ piece.old.items ++ bytes.now }
{
    if piece.try_extend_from_slice(bytes).is_err() {
        unreachable!();
    }
}
