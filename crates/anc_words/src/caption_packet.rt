ghost use Rattle.std.specs.Prelude.{◌≡◌, ◌≤◌, ◌%◌, length, map, sum as total};
ghost use Rattle.anc_words.specs.CaptionWords.{low_of};

use crate::caption_words::CaptionWords;
use crate::words::low_byte;

/// A whole ancillary packet of captions (SMPTE ST 291-1), with DID 61 and SDID 01 (SMPTE ST 334-1). The flag, DID, SDID, the
/// count, the user words and the checksum word are all as they must be. It borrows the bytes in which it was found.
#[derive(Clone, Copy)]
pub struct CaptionPacket<'a> {
    // The user words, the high byte of each first.
    user: &'a [[u8; 2]],
    // The sum of the bytes that they carry, modulo 256.
    sum: u8,
    ghost few: { length user.now ≤ 255 },
    ghost total: { sum ≡ total (map low_of user.now) % 256 },
}

impl<'a> CaptionPacket<'a> {
    ghost use Rattle.std.specs.Prelude.{◌≡◌, ◌++◌, ℕ, List, IfSome, IsSome, drop};
    ghost use Rattle.anc_words.specs.CaptionPackets.{IsCaptionAhead, caption_packet_size, carried_by};

    /// The packet of captions with which `bytes` begin, whatever follows it. `None` where they don't begin with a whole one:
    /// where it is cut, another packet, or a word of it would be refused.
    pub fn at_front(bytes: &'a [u8]) -> Option<CaptionPacket<'a>>
        ensures packet { IfSome result
            (λ packet. IsCaptionAhead bytes.now (caption_packet_size packet) (carried_by packet)) }
        ensures none { (size : ℕ) (user : List ℕ) → IsCaptionAhead bytes.now size user
            → IsSome result }
    {
        let words = CaptionWords::at_front(bytes)?;
        let sum = words.right_sum()?;
        Some(CaptionPacket {
            user: words.user,
            sum: (sum % 256) as u8,
        })
    }

    /// The sum of the bytes that it carries, modulo 256.
    pub fn sum(&self) -> u8
        ensures { result ≡ total (carried_by self.now) % 256 }
    {
        self.sum
    }

    /// The number of its bytes: two for each word.
    pub fn size(&self) -> usize
        ensures { result ≡ caption_packet_size self.now }
    {
        2 * (self.user.len() + 7)
    }

    /// Puts the bytes that it carries, those in bits 7 to 0 of its user words, into the front of `out`, and gives their
    /// number, at most 255. What follows them in `out` is as it was.
    pub fn user_bytes(&self, out: &mut [u8; 255]) -> usize
        ensures len { result ≡ length (carried_by self.now) }
        ensures few { result ≤ 255 }
        ensures bytes { out.new ≡ carried_by self.now ++ drop result out.old }
    {
        for place in 0..self.user.len() {
            out[place] = low_byte(self.user[place]);
        }
        self.user.len()
    }
}
