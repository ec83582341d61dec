ghost use Rattle.std.specs.Prelude.{◌≡◌, ◌≤◌, ◌%◌, ◌<◌, All, IfNone, IfSome, List, length, ℕ, sum};
ghost use Rattle.cc_base.specs.Rate.{rate_of};
ghost use Rattle.cc_base.specs.declared.rate.Rate.{Rate as RateOf};
ghost use Rattle.cc_data.specs.Triplets.{triplets_of};
ghost use Rattle.cdp_packets.specs.Packets.{Frame, IsCdp};
ghost use Rattle.caption_packets.specs.FrameWords.{IsFrame, cc_data_words, cdp_words};

use anc_words::{CAPTION_DID, CAPTION_SDID, write_packet};
use arrayvec::ArrayVec;
use cc_base::Rate;
use cc_data::{Triplet, read_triplet};
use cdp_packets::read_summed_packet;
use words_files::write_triplets;

/// The words of the ancillary packet that carries triplets, three bytes each, and nothing else, with a rate's code, 1 to 8, and a counter:
/// None where that is no code, the counter is above 65,535, or the bytes aren't whole triplets, 31 at most. The marker bits of triplets,
/// the top five of their first byte, are written as ones (CTA-708-E, cc_data(); SMPTE ST 334-1 and ST 334-2).
pub fn words_of_cc_data(cc_data: &[u8], rate: u32, counter: u32) -> Option<ArrayVec<u8, 524>>
    ensures some { IfSome result (λ words. (rate_is : RateOf)
        × IsFrame cc_data.now rate counter rate_is
        × (words.items ≡ cc_data_words cc_data.now rate_is counter)) }
    ensures none { IfNone result
        ((rate_is : RateOf) → IsFrame cc_data.now rate counter rate_is → ⊥) }
{
    let rate = rate_of_code(rate)?;
    let counter = u16::try_from(counter).ok()?;
    if cc_data.len() > 93 || cc_data.len() % 3 != 0 {
        return None;
    }
    let mut words = ArrayVec::new();
    write_triplets(rate, counter, &triplets_of(cc_data), &mut words);
    Some(words)
}

// The rate of a code.
fn rate_of_code(code: u32) -> Option<Rate>
    ensures { result ≡ rate_of code }
{
    if code > 8 {
        return None;
    }
    Rate::from_code(code as u8)
}

// The triplets of these bytes, three bytes each.
fn triplets_of(bytes: &[u8]) -> ArrayVec<Triplet, 31>
    requires { length bytes.now ≤ 93 }
    ensures triplets { result.items ≡ triplets_of bytes.now }
    ensures few { length result.items ≤ 31 }
    ensures kinds { All (λ t. t.kind < 4) result.items }
{
    let mut triplets = ArrayVec::new();
    let mut rest = bytes;
    while let Some((triplet, more)) = rest.split_first_chunk::<3>() {
        triplets.push(read_triplet(*triplet));
        rest = more;
    }
    triplets
}

/// The words of the ancillary packet that carries a distribution packet, byte for byte: None where the bytes aren't one, from the first to
/// the last (SMPTE ST 334-1 and ST 334-2).
pub fn words_of_cdp(cdp: &[u8]) -> Option<ArrayVec<u8, 524>>
    ensures some { IfSome result (λ words. (packet : Frame) × IsCdp packet cdp.now
        × (words.items ≡ cdp_words cdp.now)) }
    ensures none { IfNone result ((packet : Frame) → IsCdp packet cdp.now → ⊥) }
{
    read_summed_packet(cdp, total(cdp))?;
    let mut words = ArrayVec::new();
    write_packet(CAPTION_DID, CAPTION_SDID, cdp, &mut words);
    Some(words)
}

// The sum of bytes, modulo 256.
fn total(bytes: &[u8]) -> u8
    ensures { result ≡ sum bytes.now % 256 }
{
    let mut total = 0u8;
    for byte in bytes {
        total = total.wrapping_add(*byte);
    }
    total
}
