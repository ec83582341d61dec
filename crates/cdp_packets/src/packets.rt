ghost use Rattle.std.specs.Prelude.{◌≡◌, ℕ, ◌≤◌, ◌%◌, List, [], length, sum};
ghost use Rattle.std.specs.List.{concat};
ghost use Rattle.cdp_packets.specs.Sections.{AreSections, IsSectionList};
ghost use Rattle.cdp_packets.specs.Packets.{IsCdp};
ghost use Rattle.cdp_packets.specs.Written.{written_packet, checksum_of};

use crate::pieces::append;
use arrayvec::ArrayVec;
use cc_base::Rate;

/// The flags of a packet with a section of cc_data alone, of an active caption service (SMPTE ST 334-2).
pub const CAPTION_FLAGS: u8 = 0x43;

/// Writes a caption distribution packet of this rate, flags, counter and list of sections, of which there are
/// at most 244 bytes, into an empty `out`. The flags stand as given. From the top they say that there are a
/// time code, cc_data, service information, that this begins, is a change of, and is the whole of it, and that
/// captions are active. The lowest is one. The four bits beside the rate are written as ones (SMPTE ST 334-2).
#[inline(always)]
pub fn write_cdp(rate: Rate, flags: u8, counter: u16, sections: &[u8], out: &mut ArrayVec<u8, 255>)
    requires short { length sections.now ≤ 244 }
    requires list { IsSectionList sections.now }
    requires empty { out.old.items ≡ [] }
    ensures written { out.new.items ≡ written_packet rate flags counter sections.now }
    ensures packet { (cut : List (List ℕ)) → AreSections cut → concat cut ≡ sections.now
        → IsCdp (record { rate = rate; flags = flags; counter = counter; sections = cut }) out.new.items }
{
    let length = (sections.len() + AROUND_SECTIONS) as u8;
    let [high, low] = counter.to_be_bytes();
    let rate_byte = 16 * rate.code() + RATE_MARKER;
    append(out, &IDENTIFIER);
    append(out, &[length, rate_byte, flags, high, low]);
    append(out, sections);
    append(out, &[FOOTER, high, low]);
    let checksum = checksum(out.as_slice());
    out.push(checksum);
}

// The byte that makes the sum of these bytes and itself 0 modulo 256.
pub(crate) fn checksum(bytes: &[u8]) -> u8
    ensures { result ≡ checksum_of bytes.now }
{
    0u8.wrapping_sub(total(bytes))
}

// The sum of these bytes, modulo 256.
pub(crate) fn total(bytes: &[u8]) -> u8
    ensures { result ≡ sum bytes.now % 256 }
{
    let mut total = 0u8;
    for byte in bytes {
        total = total.wrapping_add(*byte);
    }
    total
}

// The identifier, with which every packet begins.
const IDENTIFIER: [u8; 2] = [0x96, 0x69];

// The bytes of a packet before its sections and after them.
const AROUND_SECTIONS: usize = 7 + 4;

// The four bits beside the rate.
const RATE_MARKER: u8 = 0x0F;

// The id of the footer.
pub(crate) const FOOTER: u8 = 0x74;
