ghost use Rattle.std.specs.Prelude.{◌+◌, ◌-◌, ◌≤◌, ◌<◌, ◌^◌, IfOk, length, max};
ghost use Rattle.cc_base.specs.Streams.{whole_limit};
ghost use Rattle.scc_files.specs.Phases.{HasNumbersInRange};
ghost use Rattle.scc_files.specs.Gathering.{GathersByte};
ghost use Rattle.scc_files.specs.Offences.{FileAnswers};
ghost use Rattle.scc_files.specs.Reading.{AnswersPairs, read_file};

use crate::fault::SccFault;
use crate::pairs::SccPairs;
use crate::reader::{Offence, Reader};
use cc_base::{LimitOf, Refusal};
use std::alloc::{AllocError, Global};

/// The most frames of an import.
const MOST_FRAMES: u32 = 2_592_000;

/// What was read so far.
#[derive(Drop)]
pub struct Gathered {
    /// Where the bytes have ended.
    pub reader: Reader,
    /// Their pairs.
    pub pairs: SccPairs,
    /// How many frames the pairs take.
    pub frames: u32,
}

/// Why reading stops.
#[derive(Drop)]
pub enum Stop {
    /// There was no memory for a pair.
    Memory(AllocError),
    /// A byte offends.
    Offends(Offence),
}

impl Gathered {
    /// Takes a byte.
    fn take(&mut self, byte: u8) -> Result<(), Stop>
        requires within { HasNumbersInRange self.old.reader.phase }
        requires room { self.old.reader.position.next < 2 ^ 32 - 1 }
        ensures gathers { GathersByte self.old self.new byte result }
        ensures within { IfOk result (λ _. HasNumbersInRange self.new.reader.phase) }
        ensures next { IfOk result
            (λ _. self.new.reader.position.next ≤ max 2592000 (self.old.reader.position.next + 1)) }
    {
        match self.reader.step(byte) {
            Ok(None) => Ok(()),
            Ok(Some(placed)) => {
                if let Err(error) = self.pairs.push(placed) {
                    return Err(Stop::Memory(error));
                }
                self.frames = self.reader.position.next;
                Ok(())
            }
            Err(offence) => Err(Stop::Offends(offence)),
        }
    }
}

/// Reads an SCC file of at most 67,108,864 bytes: its pairs with their parity bits as they are, each at its frame. Frame 0 is at the
/// frame `opening` of the day where one is given, and else at the first line's time code. One pass over the bytes; the only memory
/// taken is for the pairs.
///
/// Malformed comes exactly where the bytes are no SCC file, with the place and the reason of their first offence: Header at the first
/// byte that no first line has, SccSyntax at the first byte that no line can continue with, both at the number of bytes where the file
/// ends too soon; NoSuchTime and Backwards at the first byte of a time code's text, which is judged when it is whole. A first time code
/// before `opening` is Backwards too. Limit (Frames) comes exactly where the bytes are an SCC file of more than 2,592,000 frames.
pub fn read_scc(alloc: Global, opening: Option<u32>, bytes: &[u8]) -> Result<SccPairs, SccFault>
    requires { length bytes.now ≤ whole_limit }
    ensures answers { AnswersPairs (read_file opening bytes.now) result }
    ensures file { FileAnswers opening bytes.now result }
{
    read_bytes(alloc, opening, bytes)
}

// Reads them byte by byte.
fn read_bytes(alloc: Global, opening: Option<u32>, bytes: &[u8]) -> Result<SccPairs, SccFault>
    requires { length bytes.now ≤ whole_limit }
    ensures { AnswersPairs (read_file opening bytes.now) result }
{
    let mut gathered = Gathered {
        reader: Reader::new(opening),
        pairs: SccPairs::new(alloc),
        frames: 0,
    };
    for (at, byte) in bytes.iter().enumerate() {
        match gathered.take(*byte) {
            Ok(()) => {}
            Err(Stop::Memory(error)) => return Err(SccFault::Memory(error)),
            Err(Stop::Offends(offence)) => {
                let place = (at as u64).saturating_sub(u64::from(offence.back));
                let why = offence.why;
                return Err(SccFault::Malformed(Refusal { place, why }));
            }
        }
    }
    let phase = gathered.reader.phase;
    if !phase.may_end() {
        let place = bytes.len() as u64;
        let why = phase.why();
        return Err(SccFault::Malformed(Refusal { place, why }));
    }
    if gathered.frames > MOST_FRAMES {
        return Err(SccFault::Limit(LimitOf::Frames));
    }
    Ok(gathered.pairs)
}
