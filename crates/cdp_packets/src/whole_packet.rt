ghost use Rattle.std.specs.Prelude.{◌≡◌, ℕ, ◌%◌, ◌≤◌, ◌++◌, List, length, sum, IfNone, IfSome, MatchBool};
ghost use Rattle.cc_data.specs.Triplets.{triplets_of};
ghost use Rattle.cdp_packets.specs.Packets.{Frame, IsCdp};
ghost use Rattle.cdp_packets.specs.PacketTriplets.{section_triplet_bytes, section_triplets};
ghost use Rattle.cdp_packets.specs.Sections.{is_id, IsSection, IsSectionList};
ghost use Rattle.cdp_packets.specs.WholePackets.{SaysPacket};

use crate::packets::FOOTER;
use crate::sections::{
    CC_DATA, FIRST_FUTURE, LAST_FUTURE, SERVICE_INFORMATION, TIME_CODE, rest_len,
};
use cc_base::Rate;

/// What a whole distribution packet says before its sections, and the bytes of these (SMPTE ST 334-2).
#[derive(Clone, Copy, PartialEq, Eq)]
pub struct WholePacket<'a> {
    /// The frame rate.
    pub rate: Rate,
    /// The flags, as they stand.
    pub flags: u8,
    /// The packet's number.
    pub counter: u16,
    /// The bytes of the sections, one section after another.
    pub sections: &'a [u8],
}

/// Reads bytes that are a distribution packet from the first to the last, whose sum modulo 256 is known: what it says. `None`
/// where they aren't one; `CdpReader` says at which byte, and why (SMPTE ST 334-2).
#[inline]
pub fn read_summed_packet(bytes: &[u8], total: u8) -> Option<WholePacket<'_>>
    requires { total ≡ sum bytes.now % 256 }
    ensures packet { IfSome result
        (λ whole. (packet : Frame) × IsCdp packet bytes.now × SaysPacket whole packet) }
    ensures few { IfSome result (λ whole. length whole.sections.now ≤ 244) }
    ensures none { IfNone result ((packet : Frame) → IsCdp packet bytes.now → ⊥) }
{
    let [
        first,
        second,
        length,
        rate,
        flags,
        high,
        low,
        sections @ ..,
        id,
        high_again,
        low_again,
        _,
    ] = bytes
    else {
        return None;
    };
    if *first != 0x96 || *second != 0x69 || usize::from(*length) != bytes.len() {
        return None;
    }
    if *id != FOOTER || high_again != high || low_again != low {
        return None;
    }
    if total != 0 || !are_sections(sections) {
        return None;
    }
    Some(WholePacket {
        rate: Rate::from_code(rate / 16)?,
        flags: *flags,
        counter: u16::from(*high) * 256 + u16::from(*low),
        sections,
    })
}

// Whether bytes are a list of sections.
fn are_sections(bytes: &[u8]) -> bool
    ensures { MatchBool result (IsSectionList bytes.now) (IsSectionList bytes.now → ⊥) }
{
    let mut rest = bytes;
    while let Some((_, behind)) = split_section(rest) {
        rest = behind;
    }
    rest.is_empty()
}

/// The first section of these bytes, and the bytes after it. `None` where they begin with no whole section (SMPTE ST 334-2).
pub fn split_section(bytes: &[u8]) -> Option<(&[u8], &[u8])>
    ensures section { IfSome result (λ parts. IsSection parts.0.now) }
    ensures whole { IfSome result (λ parts. bytes.now ≡ parts.0.now ++ parts.1.now) }
    ensures none { IfNone result
        ((section rest : List ℕ) → IsSection section → bytes.now ≡ section ++ rest → ⊥) }
{
    let [id, second, ..] = bytes else {
        return None;
    };
    if !is_section_id(*id) {
        return None;
    }
    bytes.split_at_checked(2 + rest_len(*id, *second))
}

// Whether a section can have this id.
fn is_section_id(id: u8) -> bool
    ensures { result ≡ is_id id }
{
    matches!(
        id,
        TIME_CODE | CC_DATA | SERVICE_INFORMATION | FIRST_FUTURE..=LAST_FUTURE
    )
}

/// The bytes of a section's triplets: those after the count of a cc_data section, and none of another section
/// (SMPTE ST 334-2, ccdata_section).
pub fn triplet_bytes(section: &[u8]) -> &[u8]
    ensures bytes { result.now ≡ section_triplet_bytes section.now }
    ensures triplets { triplets_of result.now ≡ section_triplets section.now }
{
    match section {
        [CC_DATA, _, triplets @ ..] => triplets,
        _ => &[],
    }
}
