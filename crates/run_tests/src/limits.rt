//! Words of as many bytes as the limit lets them be, and of one more; and programmes of as many frames, and as many cues, as there may be.

ghost use Rattle.std.specs.Prelude.{None};

use crate::given::given_of;
use cc_base::{LimitOf, MemorySink, Source, SteadySource, Took, Why};
use memory_runs::words::bytes_of;
use memory_runs::{Ended, Given, Place, Status, run, run_to_end, words_of};
use std::alloc::{AllocError, Global};
use std::test::Fail;

/// A source of this many bytes: a front, and after it a piece over and over. It doesn't tell what is left.
#[derive(Drop)]
struct Repeated<'a> {
    next: &'a [u8],
    piece: &'a [u8],
    left: usize,
}

impl<'a> Source for Repeated<'a> {
    ghost left = { λ _. None };

    ghost faults = { λ _. 0 };

    fn take(&mut self, buf: &mut [u8]) -> Took {
        if self.next.is_empty() {
            self.next = self.piece;
        }
        let count = self.next.len().min(buf.len()).min(self.left);
        if count == 0 {
            return Took::End;
        }
        let (given, next) = self.next.split_at(count);
        buf[..count].copy_from_slice(given);
        self.next = next;
        self.left -= count;
        Took::Got(count)
    }
}

/// The list of the caption HI on 30 frames.
const HI: &[u8] = b"ccsuite,1,29.97,30\npop,CC1,0,7,20\nrun,15,0,white,HI\n";

/// The words of frame 0 without captions at 29.97.
const SILENT: [u16; 80] = [
    0x0000, 0x03FF, 0x03FF, 0x0161, 0x0101, 0x0149, 0x0296, 0x0269, 0x0149, 0x014F, 0x0143, 0x0200,
    0x0200, 0x0272, 0x01F4, 0x02FC, 0x0180, 0x0180, 0x01FD, 0x0180, 0x0180, 0x02FA, 0x0200, 0x0200,
    0x02FA, 0x0200, 0x0200, 0x02FA, 0x0200, 0x0200, 0x02FA, 0x0200, 0x0200, 0x02FA, 0x0200, 0x0200,
    0x02FA, 0x0200, 0x0200, 0x02FA, 0x0200, 0x0200, 0x02FA, 0x0200, 0x0200, 0x02FA, 0x0200, 0x0200,
    0x02FA, 0x0200, 0x0200, 0x02FA, 0x0200, 0x0200, 0x02FA, 0x0200, 0x0200, 0x02FA, 0x0200, 0x0200,
    0x02FA, 0x0200, 0x0200, 0x02FA, 0x0200, 0x0200, 0x02FA, 0x0200, 0x0200, 0x02FA, 0x0200, 0x0200,
    0x02FA, 0x0200, 0x0200, 0x0274, 0x0200, 0x0200, 0x01BF, 0x01AB,
];

/// 250 frames without captions: as many bytes as one take of words asks for.
fn silent_frames(alloc: Global) -> Result<Vec<u8>, AllocError> {
    let frame = bytes_of(alloc, &SILENT)?;
    let mut frames = Vec::new(alloc);
    for _ in 0..250 {
        frames.extend_from_slice(&frame)?;
    }
    Ok(frames)
}

/// `decode` of this many bytes: a front, and after it frames over and over.
fn decoded(alloc: Global, front: &[u8], frames: &[u8], size: usize) -> Result<Ended, AllocError> {
    let words = words_of(alloc, &["decode"])?;
    let mut input = Repeated {
        next: front,
        piece: frames,
        left: size,
    };
    let mut side = SteadySource::new(Vec::new(alloc));
    let mut out = MemorySink::new(alloc, 200, Vec::new(alloc))?;
    let mut err = MemorySink::new(alloc, 200, Vec::new(alloc))?;
    let status = run(alloc, &words, &mut input, &mut side, &mut out, &mut err);
    Ok(Ended { status, out, err })
}

/// Whether a run ended with this status, this output and this error line.
fn ended_so(ended: &Ended, status: Status, put: &[u8], line: &[u8]) -> bool {
    ended.status == status && ended.out.bytes() == put && ended.err.bytes() == line
}

#[test]
fn words_of_more_than_2147483647_bytes_are_the_limit_after_their_changes(
    rt: HostRuntime,
) -> Result<(), Fail> {
    // The 30 frames of the caption HI, and after them frames without captions, each of 160 bytes. So 2,147,483,520 bytes are whole
    // frames, and the next 127 are cut short.
    let alloc = rt.alloc();
    let built = run_to_end(alloc, given_of(&["build"], HI))?;
    let frames = silent_frames(alloc)?;
    let changes = b"frame 7\nCC1 1\n15 0 white HI\nframe 20\nCC1 0\n";
    let most = decoded(alloc, built.out.bytes(), &frames, 2_147_483_647)?;
    let cut = Status::Malformed(Place::Byte(2_147_483_647), Why::Truncated);
    let cut_line = b"malformed at byte 2147483647: Truncated\n";
    assert!(rt; ended_so(&most, cut, changes, cut_line));
    let more = decoded(alloc, built.out.bytes(), &frames, 2_147_483_648)?;
    let limit = Status::Limit(LimitOf::Bytes);
    assert!(rt; ended_so(&more, limit, changes, b"limit Bytes\n"));
    Ok(())
}

/// A list of this many pop-on cues, each 40 frames after the one before, on this many frames.
fn list_of(alloc: Global, cues: u32, frames: usize) -> Result<String, AllocError> {
    let mut list = format!(in alloc; "ccsuite,2,29.97,{frames}\n")?;
    for number in 0..cues {
        let load = 40 * u64::from(number);
        let cue = format!(in alloc;
            "pop,CC1,{load},{},{}\nrun,15,0,white,HI\n",
            load + 20,
            load + 30
        )?;
        list.push_str(&cue)?;
    }
    Ok(list)
}

/// A command on words, with a list as its side file.
fn with_list<'a>(words: &'a [&'a str], list: &'a [u8], text: &'a [u8]) -> Given<'a> {
    Given {
        side: list,
        ..given_of(words, text)
    }
}

/// Whether `build` puts words of all frames of such a list, `verify` finds nothing in them, and `insert` of the list leaves them as they are.
fn is_kept(alloc: Global, cues: u32, frames: usize) -> Result<bool, AllocError> {
    let list = list_of(alloc, cues, frames)?;
    let list = list.as_bytes();
    let size = frames.saturating_mul(160);
    let built = run_to_end(
        alloc,
        Given {
            room: size,
            ..given_of(&["build"], list)
        },
    )?;
    let words = built.out.bytes();
    let verified = run_to_end(alloc, with_list(&["verify", "list.csv"], list, words))?;
    let inserted = run_to_end(
        alloc,
        Given {
            room: size,
            ..with_list(&["insert", "list.csv"], list, words)
        },
    )?;
    Ok(
        ended_so(&built, Status::Ok, words, b"")
            && words.len() == size
            && ended_so(&verified, Status::Ok, b"ok\n", b"")
            && ended_so(&inserted, Status::Ok, words, b""),
    )
}

#[test]
fn the_longest_programmes_are_built_verified_and_left_as_they_are_by_insert(
    rt: HostRuntime,
) -> Result<(), Fail> {
    assert!(rt; is_kept(rt.alloc(), 1, 1_000_000)?);
    assert!(rt; is_kept(rt.alloc(), 20_000, 800_040)?);
    Ok(())
}
