ghost use Rattle.std.specs.Prelude.{◌≡◌, []};
ghost use Rattle.frame_carrier.specs.End.{silent_frame};
ghost use Rattle.frame_carrier.specs.Carrying.{frame_bytes};

use arrayvec::ArrayVec;
use cc_base::Rate;
use frame_carrier::{Carrier, FrameBytes};
use words_files::write_triplets;

/// Frames without captions that are missing before a packet of captions.
#[derive(Clone, Copy)]
pub struct MissingFrames {
    /// Their rate.
    pub rate: Rate,
    /// The number of the next one, which is its counter.
    pub number: u16,
    /// How many are left.
    pub left: u32,
}

/// The words of a frame without captions into an empty `out`.
fn put_frame(rate: Rate, number: u16, out: &mut ArrayVec<u8, 524>)
    requires { out.old.items ≡ [] }
    ensures { out.new.items ≡ frame_bytes rate number (silent_frame rate number) [] }
{
    let frame = FrameBytes::silent(rate, u32::from(number));
    let triplets = Carrier::new(rate).triplets(&frame);
    write_triplets(rate, number, &triplets, out);
}

impl MissingFrames {
    ghost use Rattle.mcc_words.specs.Makers.{PutsNext};

    /// Puts the words of the next missing frame into an empty `out`: whether one was left. It is the packet of a programme's frame
    /// without captions (SMPTE ST 334-1 and ST 334-2). It has a null pair in each field that has a slot there. At 59.94 and 60 frames a
    /// second that is field 1 where its number is even, and field 2 where it is odd. The others are triplets that don't count, up to the
    /// rate's number.
    pub fn put_next(&mut self, out: &mut ArrayVec<u8, 524>) -> bool
        requires { out.old.items ≡ [] }
        ensures { PutsNext self.old self.new result out.new.items }
    {
        if self.left == 0 {
            return false;
        }
        put_frame(self.rate, self.number, out);
        self.left -= 1;
        self.number = self.number.wrapping_add(1);
        true
    }
}
