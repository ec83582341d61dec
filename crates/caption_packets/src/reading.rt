ghost use Rattle.std.specs.Prelude.{◌≡◌, ◌≤◌, ◌+◌, ◌++◌, IfNone, IfSome, List, length, ℕ};
ghost use Rattle.std.specs.List.{concat, flat_map};
ghost use Rattle.anc_words.specs.CaptionPackets.{IsCaptionAhead, carried_by};
ghost use Rattle.cdp_packets.specs.PacketTriplets.{section_triplet_bytes};
ghost use Rattle.cdp_packets.specs.Sections.{AreSections};
ghost use Rattle.caption_packets.specs.FrameWords.{CarriesCdp, SaysFrame};

use anc_words::CaptionPacket;
use arrayvec::ArrayVec;
use cc_base::Rate;
use cdp_packets::{read_summed_packet, split_section, triplet_bytes};

/// What a distribution packet says (SMPTE ST 334-2).
#[derive(Drop)]
pub struct FrameData {
    /// The frame rate.
    pub rate: Rate,
    /// The flags, as they stand.
    pub flags: u8,
    /// The packet's number.
    pub counter: u16,
    /// Its triplets of cc_data, three bytes each, as they stand.
    pub cc_data: ArrayVec<u8, 244>,
}

/// The distribution packet that the words of an ancillary packet of captions carry, byte for byte: None where the words aren't just one such
/// packet, whole and right in both layers (SMPTE ST 291-1, ST 334-1 and ST 334-2).
pub fn cdp_of_words(words: &[u8]) -> Option<ArrayVec<u8, 255>>
    ensures some { IfSome result (λ cdp. CarriesCdp words.now cdp.items) }
    ensures one { (cdp : List ℕ) → CarriesCdp words.now cdp
        → IfSome result (λ it. it.items ≡ cdp) }
    ensures none { IfNone result ((cdp : List ℕ) → CarriesCdp words.now cdp → ⊥) }
{
    let packet = whole_packet(words)?;
    let cdp = user_bytes(&packet);
    read_summed_packet(&cdp, packet.sum())?;
    Some(cdp)
}

// The packet of captions that these words are, whole.
fn whole_packet(words: &[u8]) -> Option<CaptionPacket<'_>>
    ensures some { IfSome result
        (λ packet. IsCaptionAhead words.now (length words.now) (carried_by packet)) }
    ensures one { (user : List ℕ) → IsCaptionAhead words.now (length words.now) user
        → IfSome result (λ packet. carried_by packet ≡ user) }
    ensures none { IfNone result
        ((user : List ℕ) → IsCaptionAhead words.now (length words.now) user → ⊥) }
{
    let packet = CaptionPacket::at_front(words)?;
    if packet.size() == words.len() {
        Some(packet)
    } else {
        None
    }
}

// The bytes that a packet carries.
fn user_bytes(packet: &CaptionPacket<'_>) -> ArrayVec<u8, 255>
    ensures { result.items ≡ carried_by packet.now }
{
    let mut user = [0; 255];
    let count = packet.user_bytes(&mut user);
    let mut bytes = ArrayVec::new();
    append(&mut bytes, &user[..count]);
    bytes
}

/// What it says: None where the words aren't just one such packet.
pub fn frame_of_words(words: &[u8]) -> Option<FrameData>
    ensures some { IfSome result (SaysFrame words.now) }
    ensures none { IfNone result ((cdp : List ℕ) → CarriesCdp words.now cdp → ⊥) }
{
    let cdp = cdp_of_words(words)?;
    let Some(packet) = read_summed_packet(&cdp, 0) else {
        unreachable!();
    };
    Some(FrameData {
        rate: packet.rate,
        flags: packet.flags,
        counter: packet.counter,
        cc_data: cc_data_of(packet.sections),
    })
}

// The bytes of the triplets of sections.
fn cc_data_of(sections: &[u8]) -> ArrayVec<u8, 244>
    requires { length sections.now ≤ 244 }
    ensures { (cut : List (List ℕ)) → AreSections cut → concat cut ≡ sections.now
        → result.items ≡ flat_map section_triplet_bytes cut }
{
    let mut bytes = ArrayVec::new();
    let mut rest = sections;
    while let Some((section, behind)) = split_section(rest) {
        append(&mut bytes, triplet_bytes(section));
        rest = behind;
    }
    bytes
}

// Appends bytes for which there is room.
fn append<const ROOM: usize>(bytes: &mut ArrayVec<u8, ROOM>, more: &[u8])
    requires { length bytes.old.items + length more.now ≤ ROOM }
    ensures { bytes.new.items ≡ bytes.old.items ++ more.now }
{
    if bytes.try_extend_from_slice(more).is_err() {
        unreachable!();
    }
}
