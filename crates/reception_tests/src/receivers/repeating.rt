use super::{SECTIONS, feed_pieces, frame_of};
use cc_receiver::Receiver;
use std::alloc::AllocError;

/// What is turned over in a byte of the sections: its lowest bit, or the bit by which a triplet counts.
const LOWEST: u8 = 0x01;

const COUNTS: u8 = 0x04;

// A frame that is beside the one before it in any one byte says what its own bytes say, and so do the frames after it, which
// are like one another. They are fed byte by byte, frame by frame, and two at once.
#[test]
fn frames_beside_one_another_are_read(rt: HostRuntime) -> Result<(), AllocError> {
    let alloc = rt.alloc();
    let mut like = frame_of(2, &SECTIONS).to_vec(alloc)?;
    like.extend_from_slice(&frame_of(3, &SECTIONS))?;
    for size in [1, 160, 1000] {
        let mut receiver = Receiver::new(alloc)?;
        for at in 2..62usize {
            for bits in [LOWEST, COUNTS] {
                let mut sections = SECTIONS;
                sections[at] ^= bits;
                let mut beside = frame_of(0, &SECTIONS).to_vec(alloc)?;
                beside.extend_from_slice(&frame_of(1, &sections))?;
                // the pairs are null but where one of their own bytes is another
                let idle = !matches!(at, 3 | 4 | 6 | 7);
                // with FD in place of FC, or a triplet that doesn't count, field 1 has no pair; with FC in place of FD it has two
                let pairs = match (at, bits) {
                    (2, _) => 0,
                    (5, LOWEST) => 2,
                    _ => 1,
                };
                assert!(rt; feed_pieces(&mut receiver, beside.as_slice(), size).is_ok());
                assert!(rt; receiver.frames() > 0);
                assert!(rt;
                    receiver.counter() == 1
                        && receiver.sections() == &sections[..]
                        && receiver.is_idle() == idle
                        && receiver.pairs_one().len() == pairs
                        && receiver.triplet_count() == 20
                );
                assert!(rt; feed_pieces(&mut receiver, like.as_slice(), size).is_ok());
                assert!(rt; receiver.frames() > 0);
                assert!(rt;
                    receiver.counter() == 3
                        && receiver.sections() == &SECTIONS[..]
                        && receiver.is_idle()
                        && receiver.pairs_one().len() == 1
                        && receiver.triplet_count() == 20
                );
            }
        }
        assert!(rt; receiver.frames() == 480);
    }
    Ok(())
}
