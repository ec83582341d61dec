ghost use Rattle.std.specs.Prelude.{◌≡◌};
ghost use Rattle.cc_base.specs.Why.{reason_number};
ghost use Rattle.ccsuite_c.specs.Codes.{refused_code};
ghost use Rattle.ccsuite_c.specs.Told.{TellsEnd, TellsFed, TellsNext, ended_number, refused_so};

use caption_streams::{FeedFault, NextFrame};
use cc_base::Refusal;
use cc_receiver::{Ended, Fed};

/// An argument is out of its range.
pub(crate) const ARGUMENT: u32 = 1;

/// The output has too little room.
pub(crate) const ROOM: u32 = 3;

/// Memory isn't found.
pub(crate) const MEMORY: u32 = 4;

/// A word is refused.
pub(crate) const REFUSED: u32 = 6;

/// Something was found.
pub(crate) const FOUND: u32 = 9;

/// The handle is closed.
pub(crate) const CLOSED: u32 = 32;

/// There is no further frame.
pub(crate) const END: u32 = 33;

/// No more frames can be counted.
pub(crate) const FULL: u32 = 34;

/// There is no such window.
pub(crate) const NONE: u32 = 35;

/// How far a call read, and what it met.
#[repr(C)]
#[derive(Clone, Copy, PartialEq, Eq)]
pub struct FedBytes {
    /// The number of bytes read.
    pub used: usize,
    /// The number of the refused word's first byte, counted from the first byte that was fed.
    pub place: u64,
    /// 0: no packet ended. 1: one that isn't of captions. 2: one of captions, and with it a frame.
    pub ended: u32,
    /// The number of the reason for which a word is refused, 1 to 12, or the words are cut short, 13.
    pub why: u32,
    /// Zeros, for fields to come.
    pub reserved: [u64; 2],
}

/// Nothing read, and nothing met.
pub(crate) const NOTHING: FedBytes = FedBytes {
    used: 0,
    place: 0,
    ended: 0,
    why: 0,
    reserved: [0; 2],
};

/// Tells what came of bytes that were fed: 0; 6, where a word is refused; 9, where something was found before; 34, where no more frames
/// can be counted.
pub(crate) fn tell(answer: Result<Fed, FeedFault>, fed: &mut FedBytes) -> u32
    ensures { TellsFed answer result fed.new }
{
    *fed = NOTHING;
    match answer {
        Ok(read) => {
            fed.used = read.used;
            fed.ended = ended_number(read.ended);
            0
        }
        Err(FeedFault::Refused(refusal)) => tell_refusal(refusal, fed),
        Err(FeedFault::Found(_)) => FOUND,
        Err(FeedFault::TooManyFrames) => FULL,
    }
}

/// Tells whether words may end: 0; 6, where a word is refused, or the last bytes don't end a packet.
pub(crate) fn tell_end(answer: Result<(), Refusal>, fed: &mut FedBytes) -> u32
    ensures { TellsEnd answer result fed.new }
{
    *fed = NOTHING;
    match answer {
        Ok(()) => 0,
        Err(refusal) => tell_refusal(refusal, fed),
    }
}

/// Tells what came of asking for the next frame: 0, and how many bytes of it are written; 3, and how many are wanted; 33, where there is
/// no further one.
pub(crate) fn tell_next(answer: NextFrame, count: &mut usize) -> u32
    ensures { TellsNext answer result count.new }
{
    *count = 0;
    match answer {
        NextFrame::Given(bytes) => {
            *count = bytes;
            0
        }
        NextFrame::NoRoom(bytes) => {
            *count = bytes;
            ROOM
        }
        NextFrame::Over => END,
    }
}

fn tell_refusal(refusal: Refusal, fed: &mut FedBytes) -> u32
    ensures code { result ≡ refused_code }
    ensures told { fed.new ≡ refused_so refusal.place (reason_number refusal.why) }
{
    *fed = FedBytes {
        used: 0,
        place: refusal.place,
        ended: 0,
        why: u32::from(refusal.why.number()),
        reserved: [0; 2],
    };
    REFUSED
}

fn ended_number(ended: Ended) -> u32
    ensures { result ≡ ended_number ended }
{
    match ended {
        Ended::No => 0,
        Ended::Foreign => 1,
        Ended::Caption => 2,
    }
}
