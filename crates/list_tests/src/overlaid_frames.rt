use arrayvec::ArrayVec;
use frame_carrier::{FrameBytes, Frames, Overlaid, Overlay};
use line21_codes::Pair;
use std::test::Fail;

const NULL: Pair = Pair { a: 0x80, b: 0x80 };

/// This many frames with a null in each field.
#[derive(Drop)]
struct Nulls(u8);

impl Frames for Nulls {
    ghost left = { λ nulls. nulls.0 };

    ghost Gives = { λ columns frame nulls. ⊥ };

    fn next(&mut self) -> Option<FrameBytes> {
        if self.0 == 0 {
            return None;
        }
        self.0 -= 1;
        Some(FrameBytes {
            one: Some(NULL),
            two: Some(NULL),
            blocks: ArrayVec::new(),
        })
    }
}

/// A pair in field 2 of each of this many frames.
#[derive(Drop)]
struct Marks(u8);

impl Overlay for Marks {
    ghost lasts = { λ marks. marks.0 };

    ghost Lays = { λ firsts columns frame marks. ⊥ };

    fn lay(&mut self, bytes: FrameBytes) -> FrameBytes {
        self.0 -= 1;
        FrameBytes {
            one: bytes.one,
            two: Some(Pair { a: 0x15, b: self.0 }),
            blocks: bytes.blocks,
        }
    }
}

#[test]
fn pairs_are_laid_over_the_frames_of_another_and_end_with_them(
    rt: HostRuntime,
) -> Result<(), Fail> {
    let mut frames = Overlaid::new(Nulls(2), Marks(3));
    for mark in [2, 1] {
        let Some(bytes) = frames.next() else {
            return Err(Fail::from("a frame is left"));
        };
        assert!(rt; bytes.one == Some(NULL) && bytes.two == Some(Pair { a: 0x15, b: mark }));
    }
    assert!(rt; frames.next().is_none());
    Ok(())
}
