//! Laws of the definitions: functions without a body, whose contract is the law.

ghost use Rattle.std.specs.Prelude.{◌≡◌, ℕ, ◌%◌, ◌≤◌, ◌++◌, true, List, [], ◌∷◌, None, length};
ghost use Rattle.std.specs.List.{All};
ghost use Rattle.cc_base.specs.Feeding.{Verdict};
ghost use Rattle.cc_base.specs.Steps.{AreAccepted};
ghost use Rattle.cc_base.specs.Syntax.{AllRead, parts_of, read_under};
ghost use Rattle.cc_data.specs.declared.triplet.Triplet.{Triplet};
ghost use Rattle.channel_packets.specs.declared.parts.PacketPart.{PacketPart as Part};
ghost use Rattle.channel_packets.specs.ChannelPackets.{AreChannelPackets, ChannelPacket, begins_anew, channel_triplets, number_of, size_of};
ghost use Rattle.channel_packets.specs.PacketParts.{packet_parts};
ghost use Rattle.channel_packets.specs.Reading.{packet_syntax};
ghost use Rattle.channel_packets.specs.Written.{completed_bytes, header_for, packet_for, packet_written};

/// Any triplets of a file have channel packets, and in one way only. Triplets of line 21 and those that don't count change
/// nothing, wherever they stand.
pub fn triplets_have_packets_in_one_way()
    ensures some { (triplets : List Triplet)
        → (packets : List ChannelPacket) × AreChannelPackets packets triplets }
    ensures one { (packets others : List ChannelPacket) (triplets : List Triplet)
        → AreChannelPackets packets triplets
        → AreChannelPackets others triplets → packets ≡ others }
    ensures same { (packets : List ChannelPacket) (triplets others : List Triplet)
        → channel_triplets triplets ≡ channel_triplets others
        → AreChannelPackets packets triplets → AreChannelPackets packets others }
{}

/// A packet is to have an odd number of bytes after its header, 127 at most, and it has no more than these.
pub fn packets_have_their_sizes()
    ensures size { (header : ℕ) → (size_of header % 2 ≡ 1) × (size_of header ≤ 127) }
    ensures fit { (packets : List ChannelPacket) (triplets : List Triplet)
        → AreChannelPackets packets triplets
        → All (λ packet. length packet.bytes ≤ size_of packet.header) packets }
{}

/// Triplets after others have their packets after the others' packets, where none of them continues a packet before one
/// starts a packet.
pub fn packets_are_joined()
    ensures { (packets others : List ChannelPacket) (triplets more : List Triplet)
        → AreChannelPackets packets triplets
        → AreChannelPackets others more → begins_anew more ≡ true
        → AreChannelPackets (packets ++ others) (triplets ++ more) }
{}

/// No triplet is refused, and a file's triplets make the parts of its packets. Under a layer that takes these parts they are
/// handed upward, and there is no refusal.
pub fn packets_are_read()
    ensures read { (triplets : List Triplet) → AllRead packet_syntax triplets }
    ensures parts { (packets : List ChannelPacket) (triplets : List Triplet)
        → AreChannelPackets packets triplets
        → parts_of packet_syntax triplets ≡ packet_parts None packets }
    ensures handed { (verdict : Verdict Part) (packets : List ChannelPacket)
        (triplets : List Triplet) → AreChannelPackets packets triplets
        → AreAccepted verdict [] (packet_parts None packets)
        → read_under packet_syntax 1 verdict triplets
        ≡ record { parts = packet_parts None packets; refusal = None } }
{}

/// What is written is a packet of the given number and bytes, with one byte 00 after an even number of them, and it is read back
/// as this packet, whatever follows it.
pub fn written_is_read_back()
    ensures packet { (number : ℕ) (bytes : List ℕ) (rest : List Triplet)
        (others : List ChannelPacket) → 1 ≤ length bytes
        → length bytes ≤ 127 → AreChannelPackets others rest
        → AreChannelPackets (packet_for number bytes ∷ others)
        (packet_written number bytes ++ rest) }
    ensures read { (number : ℕ) (bytes : List ℕ) (rest : List Triplet)
        (packets : List ChannelPacket) → 1 ≤ length bytes
        → length bytes ≤ 127 → AreChannelPackets packets (packet_written number bytes ++ rest)
        → (others : List ChannelPacket) × (packets ≡ packet_for number bytes ∷ others)
        × AreChannelPackets others rest }
    ensures number { (number size : ℕ) → number_of (header_for number size) ≡ number }
    ensures size { (number : ℕ) (bytes : List ℕ) → length bytes ≤ 127
        → size_of (header_for number (length bytes)) ≡ length (completed_bytes bytes) }
{}
