mod repeating;
mod services;

use anc_words::write_packet;
use arrayvec::ArrayVec;
use cc_base::{MemorySink, Put, Rate, Refusal, Why};
use cc_receiver::{Ended, Fed, Receiver};
use grid_print::put_all;
use line21_codes::Pair;
use std::alloc::AllocError;

/// The bytes of the sections of a frame without captions: null pairs of both fields, and eighteen triplets that don't count.
const SECTIONS: [u8; 62] = [
    0x72, 0xF4, 0xFC, 0x80, 0x80, 0xFD, 0x80, 0x80, 0xFA, 0x00, 0x00, 0xFA, 0x00, 0x00, 0xFA, 0x00,
    0x00, 0xFA, 0x00, 0x00, 0xFA, 0x00, 0x00, 0xFA, 0x00, 0x00, 0xFA, 0x00, 0x00, 0xFA, 0x00, 0x00,
    0xFA, 0x00, 0x00, 0xFA, 0x00, 0x00, 0xFA, 0x00, 0x00, 0xFA, 0x00, 0x00, 0xFA, 0x00, 0x00, 0xFA,
    0x00, 0x00, 0xFA, 0x00, 0x00, 0xFA, 0x00, 0x00, 0xFA, 0x00, 0x00, 0xFA, 0x00, 0x00,
];

/// The sizes of the pieces in which a frame is fed.
const SIZES: [usize; 5] = [1, 2, 159, 160, 1000];

// The last byte of a distribution packet after these: the sum of all is 0.
fn last_after(front: &[u8]) -> u8 {
    let mut last = 0u8;
    for byte in front {
        last = last.wrapping_sub(*byte);
    }
    last
}

// The words of a frame at 29.97 with this counter and these sections: 160 bytes.
fn frame_of(counter: u8, sections: &[u8; 62]) -> ArrayVec<u8, 524> {
    let mut packet: ArrayVec<u8, 73> = ArrayVec::new();
    let _ = packet.try_extend_from_slice(&[0x96, 0x69, 0x49, 0x4F, 0x43, 0x00, counter]);
    let _ = packet.try_extend_from_slice(sections);
    let _ = packet.try_extend_from_slice(&[0x74, 0x00, counter]);
    let _ = packet.try_push(last_after(packet.as_slice()));
    let mut words = ArrayVec::new();
    write_packet(0x61, 0x01, packet.as_slice(), &mut words);
    words
}

// Feeds a piece to its end, or to a refusal.
fn feed_piece(receiver: &mut Receiver, piece: &[u8]) -> Result<(), Refusal> {
    let mut rest = piece;
    for _ in 0..piece.len() {
        if rest.is_empty() || receiver.frames() == u32::MAX {
            return Ok(());
        }
        let fed = receiver.feed(rest)?;
        rest = &rest[fed.used.min(rest.len())..];
    }
    Ok(())
}

// Feeds bytes in pieces of this size, 0 as 1, and gives the last answer.
fn feed_pieces(receiver: &mut Receiver, bytes: &[u8], size: usize) -> Result<(), Refusal> {
    let mut answer = Ok(());
    for piece in bytes.chunks(size.max(1)) {
        answer = feed_piece(receiver, piece);
    }
    answer
}

#[test]
fn a_frame_without_captions_is_received(rt: HostRuntime) -> Result<(), AllocError> {
    let frame = frame_of(0, &SECTIONS);
    for size in SIZES {
        let mut receiver = Receiver::new(rt.alloc())?;
        assert!(rt; feed_pieces(&mut receiver, &frame, size).is_ok());
        assert!(rt; receiver.frames() == 1);
        assert!(rt;
            receiver.finish().is_ok()
                && receiver.rate() == Rate::F2997
                && receiver.flags() == 0x43
                && receiver.counter() == 0
                && receiver.triplet_count() == 20
                && receiver.triplets().len() == 20
                && receiver.sections() == &SECTIONS[..]
                && receiver.pairs_one() == &[Pair { a: 0x80, b: 0x80 }][..]
                && receiver.is_idle()
        );
    }
    Ok(())
}

// The first word of a packet is 000.
#[test]
fn a_refusal_is_kept(rt: HostRuntime) -> Result<(), AllocError> {
    let mut receiver = Receiver::new(rt.alloc())?;
    let refusal = Refusal {
        place: 0,
        why: Why::Flag,
    };
    assert!(rt; receiver.finish().is_ok());
    assert!(rt; receiver.frames() == 0);
    assert!(rt; receiver.feed(&[0x00, 0x01]) == Err(refusal));
    assert!(rt; receiver.finish() == Err(refusal));
    assert!(rt; receiver.frames() == 0);
    assert!(rt; receiver.feed(&[]).is_err());
    Ok(())
}

/// From where on and up to where the bytes of a frame, of a packet that isn't one of captions and of a frame are fed, and the answer.
const CALLS: [(usize, usize, Fed); 6] = [
    (
        0,
        100,
        Fed {
            used: 100,
            ended: Ended::No,
        },
    ),
    (
        100,
        336,
        Fed {
            used: 60,
            ended: Ended::Caption,
        },
    ),
    (
        160,
        160,
        Fed {
            used: 0,
            ended: Ended::No,
        },
    ),
    (
        160,
        336,
        Fed {
            used: 16,
            ended: Ended::Foreign,
        },
    ),
    (
        176,
        335,
        Fed {
            used: 159,
            ended: Ended::No,
        },
    ),
    (
        335,
        336,
        Fed {
            used: 1,
            ended: Ended::Caption,
        },
    ),
];

#[test]
fn a_call_stops_behind_each_packet(rt: HostRuntime) -> Result<(), AllocError> {
    let mut bytes = frame_of(0, &SECTIONS).to_vec(rt.alloc())?;
    let mut foreign = ArrayVec::new();
    write_packet(0x61, 0x02, &[0x00], &mut foreign);
    bytes.extend_from_slice(&foreign)?;
    bytes.extend_from_slice(&frame_of(1, &SECTIONS))?;
    let mut receiver = Receiver::new(rt.alloc())?;
    for (from, to, want) in CALLS {
        let piece = bytes.as_slice().get(from..to).unwrap_or(&[]);
        assert!(rt; receiver.frames() < 3);
        assert!(rt; receiver.feed(piece) == Ok(want));
    }
    assert!(rt; receiver.frames() == 2 && receiver.counter() == 1);
    Ok(())
}

// `show` takes no number as high as this one.
#[test]
fn the_highest_frame_number_is_shown(rt: HostRuntime) -> Result<(), AllocError> {
    let receiver = Receiver::new(rt.alloc())?;
    let mut sink = MemorySink::new(rt.alloc(), 100, Vec::new(rt.alloc()))?;
    assert!(rt; put_all(&receiver, 4_294_967_295, &mut sink) == Put::Done);
    assert!(rt; sink.bytes() == b"frame 4294967295\n".as_slice());
    Ok(())
}
