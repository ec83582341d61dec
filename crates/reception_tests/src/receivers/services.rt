use super::{SECTIONS, frame_of};
use arrayvec::ArrayVec;
use cc_receiver::Receiver;
use grid_print::Shown;
use std::alloc::AllocError;

/// Window 0 of service 1, hidden, with HELLO: frame 0.
const HELLO: [u8; 36] = [
    0xFF, 0x0A, 0x32, 0xFE, 0x98, 0x18, 0xFE, 0x3C, 0x32, 0xFE, 0x00, 0x09, 0xFE, 0x09, 0x92, 0xFE,
    0x00, 0x00, 0xFE, 0x90, 0x05, 0xFE, 0x00, 0x48, 0xFE, 0x45, 0x4C, 0xFE, 0x4C, 0x4F, 0xFA, 0x00,
    0x00, 0xFA, 0x00, 0x00,
];

/// A delay of one second, and the window is shown: frame 30.
const SHOW_LATER: [u8; 36] = [
    0xFF, 0x43, 0x24, 0xFE, 0x8D, 0x0A, 0xFE, 0x89, 0x01, 0xFA, 0x00, 0x00, 0xFA, 0x00, 0x00, 0xFA,
    0x00, 0x00, 0xFA, 0x00, 0x00, 0xFA, 0x00, 0x00, 0xFA, 0x00, 0x00, 0xFA, 0x00, 0x00, 0xFA, 0x00,
    0x00, 0xFA, 0x00, 0x00,
];

/// The window is deleted: frame 200.
const DELETE: [u8; 36] = [
    0xFF, 0x82, 0x22, 0xFE, 0x8C, 0x01, 0xFA, 0x00, 0x00, 0xFA, 0x00, 0x00, 0xFA, 0x00, 0x00, 0xFA,
    0x00, 0x00, 0xFA, 0x00, 0x00, 0xFA, 0x00, 0x00, 0xFA, 0x00, 0x00, 0xFA, 0x00, 0x00, 0xFA, 0x00,
    0x00, 0xFA, 0x00, 0x00,
];

/// Windows of services 1 and 2, each with a letter after a delay of a tenth.
const DELAYED: [u8; 36] = [
    0xFF, 0x0C, 0x2A, 0xFE, 0x98, 0x20, 0xFE, 0x00, 0x00, 0xFE, 0x00, 0x05, 0xFE, 0x09, 0x8D, 0xFE,
    0x01, 0x48, 0xFE, 0x4A, 0x98, 0xFE, 0x20, 0x00, 0xFE, 0x00, 0x00, 0xFE, 0x05, 0x09, 0xFE, 0x8D,
    0x01, 0xFE, 0x4A, 0x00,
];

// The words of a frame with twelve triplets of channel packets.
fn carrying(triplets: &[u8; 36]) -> ArrayVec<u8, 524> {
    let mut sections = SECTIONS;
    sections[8..44].copy_from_slice(triplets);
    frame_of(0, &sections)
}

// Two delays of a tenth begin in frame 0 and hold a letter each; both end in frame 3.
#[test]
fn delays_hold_what_they_put_off(rt: HostRuntime) -> Result<(), AllocError> {
    let mut receiver = Receiver::new(rt.alloc())?;
    let mut shown = Shown::new(rt.alloc())?;
    for (held, changed) in [(1, true), (1, false), (1, false), (0, true), (0, false)] {
        let words = if receiver.frames() == 0 {
            carrying(&DELAYED)
        } else {
            frame_of(0, &SECTIONS)
        };
        assert!(rt; receiver.frames() < 5);
        assert!(rt; receiver.feed(&words).is_ok());
        assert!(rt; shown.pass(&receiver) == changed);
        assert!(rt;
            receiver.held(1) == held
                && receiver.held(2) == held
                && receiver.held(3) == 0
                && receiver.is_used(2)
                && !receiver.is_used(3)
        );
    }
    Ok(())
}

// Feeds the frames from the next one up to another.
fn feed_up_to(receiver: &mut Receiver, frames: u32) {
    for frame in receiver.frames()..frames {
        let words = match frame {
            0 => carrying(&HELLO),
            30 => carrying(&SHOW_LATER),
            200 => carrying(&DELETE),
            _ => frame_of(0, &SECTIONS),
        };
        if receiver.frames() < 300 {
            let _ = receiver.feed(&words);
        }
    }
}

// HELLO is sent in frame 0, its delay of a second begins in frame 30 and ends in frame 60, and frame 200 deletes the window.
#[test]
fn a_window_is_touched_at_the_end_of_its_delay(rt: HostRuntime) -> Result<(), AllocError> {
    let mut receiver = Receiver::new(rt.alloc())?;
    let mut shown = Shown::new(rt.alloc())?;
    for (frames, held, touched) in [
        (30, 0, false),
        (31, 2, false),
        (60, 2, false),
        (61, 0, true),
        (62, 0, false),
        (200, 0, false),
        (201, 0, true),
        (300, 0, false),
    ] {
        feed_up_to(&mut receiver, frames);
        assert!(rt; receiver.frames() == frames);
        assert!(rt; receiver.frames() > 0);
        assert!(rt; shown.pass(&receiver) == touched);
        assert!(rt;
            receiver.held(1) == held
                && receiver.is_touched() == touched
                && receiver.filled().is_none()
        );
    }
    Ok(())
}
