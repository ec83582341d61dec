ghost use Rattle.std.specs.Prelude.{◌≡◌, ℕ, List};
ghost use Rattle.caption_packets.specs.FrameWords.{CarriesCdp, IsFrame, cc_data_words, cdp_words};
ghost use Rattle.cc_base.specs.declared.rate.Rate.{Rate as RateOf};
ghost use Rattle.cdp_packets.specs.Packets.{Frame, IsCdp};
ghost use Rattle.ccsuite_c.specs.Codes.{argument_code, refused_code};
ghost use Rattle.ccsuite_c.specs.Packets.{CcDataAnswer, HandsOver, packet_seen};
ghost use Rattle.ccsuite_c.specs.Receivers.{IsUntouched};

use crate::told::{ARGUMENT, REFUSED, ROOM};
use caption_packets::{FrameData, cdp_of_words, frame_of_words, words_of_cc_data, words_of_cdp};

/// What a packet of captions says beside its triplets.
#[repr(C)]
#[derive(Clone, Copy, PartialEq, Eq)]
pub struct PacketSeen {
    /// The code of its rate, 1 to 8.
    pub rate: u32,
    /// Its number, 0 to 65,535.
    pub counter: u32,
    /// Its flags, as they stand.
    pub flags: u32,
    /// Zeros, for fields to come.
    pub reserved: [u32; 5],
}

/// Writes the words that carry triplets of cc_data, three bytes each, and nothing else, to the front of `out`, and the number of their
/// bytes: 0. They have the code of a rate, 1 to 8, and a counter. Answers 3 where they are more than `out` has, and then how many are
/// wanted. Answers 1 where there is no such rate, the counter is above 65,535, or the bytes aren't whole triplets, 31 at most.
#[unsafe(no_mangle)]
pub extern "C" fn ccsuite_words_from_cc_data(
    cc_data: &[u8],
    rate: u32,
    counter: u32,
    out: &mut [u8],
    written: &mut usize,
) -> u32
    ensures words { (rate_is : RateOf) → IsFrame cc_data.now rate counter rate_is
        → HandsOver (cc_data_words cc_data.now rate_is counter)
        out.old out.new result written.new }
    ensures argument { ((rate_is : RateOf) → IsFrame cc_data.now rate counter rate_is → ⊥)
        → (result ≡ argument_code) × IsUntouched out.old out.new written.new }
{
    match words_of_cc_data(cc_data, rate, counter) {
        Some(words) => hand_over(&words, out, written),
        None => {
            *written = 0;
            ARGUMENT
        }
    }
}

/// Writes the triplets of cc_data that the words of one ancillary packet of captions carry to the front of `out`, three bytes each, as they
/// stand, and the number of their bytes. It also tells what else the packet says: 0. 3 where they are more than `out` has, and then how
/// many are wanted; 6 where the words aren't just one such packet, whole and right.
#[unsafe(no_mangle)]
pub extern "C" fn ccsuite_cc_data_from_words(
    words: &[u8],
    out: &mut [u8],
    written: &mut usize,
    seen: &mut PacketSeen,
) -> u32
    ensures reads { (cdp : List ℕ) → CarriesCdp words.now cdp
        → (it : List ℕ) × (carried : CarriesCdp words.now it)
        × CcDataAnswer carried.packet out.old out.new result written.new seen.old seen.new }
    ensures malformed { ((cdp : List ℕ) → CarriesCdp words.now cdp → ⊥)
        → (result ≡ refused_code) × IsUntouched out.old out.new written.new
        × (seen.new ≡ seen.old) }
{
    let Some(frame) = frame_of_words(words) else {
        *written = 0;
        return REFUSED;
    };
    let code = hand_over(&frame.cc_data, out, written);
    if code == 0 {
        *seen = packet_seen(&frame);
    }
    code
}

/// Writes the words that carry a distribution packet to the front of `out`, and the number of their bytes: 0. 3 where they are more than
/// `out` has, and then how many are wanted; 6 where the bytes aren't one, from the first to the last.
#[unsafe(no_mangle)]
pub extern "C" fn ccsuite_words_from_cdp(cdp: &[u8], out: &mut [u8], written: &mut usize) -> u32
    ensures words { (packet : Frame) → IsCdp packet cdp.now
        → HandsOver (cdp_words cdp.now) out.old out.new result written.new }
    ensures malformed { ((packet : Frame) → IsCdp packet cdp.now → ⊥)
        → (result ≡ refused_code) × IsUntouched out.old out.new written.new }
{
    match words_of_cdp(cdp) {
        Some(words) => hand_over(&words, out, written),
        None => {
            *written = 0;
            REFUSED
        }
    }
}

/// Writes the distribution packet that the words of one ancillary packet of captions carry to the front of `out`, byte for byte, and the
/// number of its bytes: 0. 3 where they are more than `out` has, and then how many are wanted; 6 where the words aren't just one such
/// packet, whole and right.
#[unsafe(no_mangle)]
pub extern "C" fn ccsuite_cdp_from_words(words: &[u8], out: &mut [u8], written: &mut usize) -> u32
    ensures reads { (cdp : List ℕ) → CarriesCdp words.now cdp
        → HandsOver cdp out.old out.new result written.new }
    ensures malformed { ((cdp : List ℕ) → CarriesCdp words.now cdp → ⊥)
        → (result ≡ refused_code) × IsUntouched out.old out.new written.new }
{
    match cdp_of_words(words) {
        Some(cdp) => hand_over(&cdp, out, written),
        None => {
            *written = 0;
            REFUSED
        }
    }
}

// Writes bytes to the front of `out`, where they have room, and their number.
fn hand_over(bytes: &[u8], out: &mut [u8], count: &mut usize) -> u32
    ensures { HandsOver bytes.now out.old out.new result count.new }
{
    *count = bytes.len();
    if out.len() < bytes.len() {
        return ROOM;
    }
    out[..bytes.len()].copy_from_slice(bytes);
    0
}

// What a packet says beside its triplets.
fn packet_seen(frame: &FrameData) -> PacketSeen
    ensures { result ≡ packet_seen frame.now.rate frame.now.counter frame.now.flags }
{
    PacketSeen {
        rate: u32::from(frame.rate.code()),
        counter: u32::from(frame.counter),
        flags: u32::from(frame.flags),
        reserved: [0; 5],
    }
}
