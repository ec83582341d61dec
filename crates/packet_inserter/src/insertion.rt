ghost use Rattle.std.specs.Prelude.{◌≡◌, ◌≤◌, ◌<◌, List, [], length, IfErr, IfOk, OnErr};
ghost use Rattle.std.specs.List.{All, concat};
ghost use Rattle.cc_base.specs.declared.limit_of.LimitOf.TheVariants as limit;
ghost use Rattle.cdp_packets.specs.Packets.{Frame};
ghost use Rattle.cdp_packets.specs.Sections.{AreSections, IsSectionList};
ghost use Rattle.cdp_packets.specs.WholePackets.{SaysPacket};
ghost use Rattle.cdp_packets.specs.Written.{written_packet};
ghost use Rattle.packet_inserter.specs.Insertion.{IsInserted, packet_length};

use crate::places::{append, kept_sections, place};
use arrayvec::ArrayVec;
use cc_base::LimitOf;
use cc_data::Triplet;
use cdp_packets::{WholePacket, cc_section, write_cdp};

/// The flags of a packet that carries cc_data, of an active caption service: bits 6 and 1 (SMPTE ST 334-2).
const CAPTION_FLAGS: u8 = 0x42;

/// The most bytes of the sections of a packet: 255 but for the seven before them and the four after them.
const ROOM: usize = 244;

/// Writes a distribution packet with these triplets, at most 31 of kinds below 4, in place of those that it has, into an empty
/// `out`. Its cc_data sections go, and one with the triplets stands in the place of the first of them. Where there was none, it
/// stands before the first section that isn't a time code, or else at the end. Flag bits 6 and 1 are set; rate, counter and all
/// else stay, but the four bits beside the rate, which are written as ones (SMPTE ST 334-2).
///
/// The limit `Packet` comes exactly where the packet would have more than 255 bytes. Nothing is written then.
pub fn insert(
    packet: &WholePacket<'_>,
    triplets: &[Triplet],
    out: &mut ArrayVec<u8, 255>,
) -> Result<(), LimitOf>
    requires few { length triplets.now ≤ 31 }
    requires kinds { All (λ t. t.kind < 4) triplets.now }
    requires list { IsSectionList packet.now.sections.now }
    requires short { length packet.now.sections.now ≤ 244 }
    requires empty { out.old.items ≡ [] }
    ensures inserted { (old : Frame) → SaysPacket packet.now old → AreSections old.sections
        → IfOk result (λ done. (new : Frame) × IsInserted triplets.now old new
        × AreSections new.sections × (packet_length new ≤ 255)
        × (out.new.items ≡ written_packet new.rate new.flags new.counter (concat new.sections))) }
    ensures limit { (old : Frame) → SaysPacket packet.now old → AreSections old.sections
        → IfErr result (λ passed. (passed ≡ limit.Packet)
        × ((new : Frame) × IsInserted triplets.now old new × (255 < packet_length new))) }
    ensures unchanged { OnErr result (out.new.items ≡ []) }
{
    let kept = kept_sections(packet.sections);
    let (before, behind) = kept.as_slice().split_at(place(packet.sections));
    if kept.len() + 2 + 3 * triplets.len() > ROOM {
        return Err(LimitOf::Packet);
    }
    let mut sections = ArrayVec::new();
    append(&mut sections, before);
    cc_section(triplets, &mut sections);
    append(&mut sections, behind);
    write_cdp(
        packet.rate,
        packet.flags | CAPTION_FLAGS,
        packet.counter,
        &sections,
        out,
    );
    Ok(())
}
