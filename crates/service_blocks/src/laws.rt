//! Laws of the definitions: functions without a body, whose contract is the law.

ghost use Rattle.std.specs.Prelude.{◌≡◌, ◌↔◌, ℕ, ◌+◌, ◌-◌, ◌≤◌, ◌++◌, List, [], ◌∷◌, Some, None, length, map};
ghost use Rattle.std.specs.List.{flat_map};
ghost use Rattle.cc_base.specs.declared.step.Step.TheVariants.{Nothing, Refuse};
ghost use Rattle.cc_base.specs.declared.why.Why.{Why as Reason};
ghost use Rattle.cc_base.specs.declared.why.Why.TheVariants as why;
ghost use Rattle.cc_base.specs.Feeding.{Verdict};
ghost use Rattle.cc_base.specs.Steps.{AreAccepted};
ghost use Rattle.cc_base.specs.Syntax.{AllRead, AllTaken, Reads, parts_of, read_under};
ghost use Rattle.channel_packets.specs.Triplet.{Triplet};
ghost use Rattle.channel_packets.specs.declared.parts.PacketPart.{PacketPart as Part};
ghost use Rattle.channel_packets.specs.declared.parts.PacketPart.TheVariants as packet_part;
ghost use Rattle.channel_packets.specs.ChannelPackets.{ChannelPacket};
ghost use Rattle.channel_packets.specs.PacketParts.{byte_parts, packet_parts};
ghost use Rattle.service_blocks.specs.declared.parts.BlockPart.{BlockPart as Handed};
ghost use Rattle.service_blocks.specs.declared.parts.BlockPart.TheVariants as part;
ghost use Rattle.service_blocks.specs.ServiceBlocks.{AreBlocks, Block};
ghost use Rattle.service_blocks.specs.BlockParts.{block_parts};
ghost use Rattle.service_blocks.specs.Channels.{AreChannel, IsHeard, IsHeardBehind, heard_behind, heard_parts, said};
ghost use Rattle.service_blocks.specs.Reading.{IsOverrun, Open, block_syntax, judge_part, open_after};
ghost use Rattle.service_blocks.specs.Written.{block_for, block_written};

/// Bytes of a packet are at most one list of blocks, and triplets at most one caption channel.
pub fn blocks_are_cut_in_one_way()
    ensures blocks { (room : ℕ) (blocks others : List Block) (bytes : List ℕ)
        → AreBlocks room blocks bytes → AreBlocks room others bytes
        → blocks ≡ others }
    ensures channel { (packets others : List ChannelPacket) (blocks more : List (List Block))
        (triplets : List Triplet)
        → AreChannel packets blocks triplets → AreChannel others more triplets
        → (packets ≡ others) × (blocks ≡ more) }
{}

/// After the header of a packet the bytes that are blocks are read, none is refused, and they make the bytes of services that the
/// blocks say. Bytes of which none is refused are blocks.
pub fn blocks_are_read()
    ensures read { (room : ℕ) (blocks : List Block) (bytes : List ℕ) → AreBlocks room blocks bytes
        → length bytes ≤ room
        → (behind : Open) × Reads block_syntax (record { left = Some room; block = [] })
        (byte_parts room bytes) (flat_map block_parts blocks) behind }
    ensures blocks { (room : ℕ) (bytes : List ℕ) → length bytes ≤ room
        → AllTaken block_syntax (record { left = Some room; block = [] }) (byte_parts room bytes)
        → (blocks : List Block) × AreBlocks room blocks bytes }
{}

/// The triplets of a caption channel are read: no header of a block passes its packet, and they make what the channel's packets and
/// blocks say. Under a layer that takes this it is handed upward, and there is no refusal.
pub fn channels_are_read()
    ensures read { (packets : List ChannelPacket) (blocks : List (List Block))
        (triplets : List Triplet) → AreChannel packets blocks triplets
        → IsHeard triplets }
    ensures says { (packets : List ChannelPacket) (blocks : List (List Block))
        (triplets : List Triplet) → AreChannel packets blocks triplets
        → heard_parts triplets ≡ said None packets blocks }
    ensures handed { (verdict : Verdict Handed) (packets : List ChannelPacket)
        (blocks : List (List Block)) (triplets : List Triplet)
        → AreChannel packets blocks triplets → AreAccepted verdict [] (said None packets blocks)
        → read_under block_syntax 1 verdict (packet_parts None packets)
        ≡ record { parts = said None packets blocks; refusal = None } }
{}

/// What is read is a caption channel: triplets of which none is refused, the last block cut short where its packet is. Of triplets
/// that are read the first ones are read, and no channel begins with triplets of which the last is refused.
pub fn what_is_read_is_a_channel()
    ensures channel { (triplets : List Triplet) → IsHeard triplets
        → (packets : List ChannelPacket)
        × ((blocks : List (List Block)) × AreChannel packets blocks triplets) }
    ensures first { (triplets more : List Triplet) → IsHeard (triplets ++ more) → IsHeard triplets }
    ensures refused { (triplets : List Triplet) (triplet : Triplet) (more : List Triplet)
        (packets : List ChannelPacket) (blocks : List (List Block))
        → (IsHeard (triplets ++ triplet ∷ []) → ⊥)
        → AreChannel packets blocks (triplets ++ triplet ∷ more) → ⊥ }
{}

/// Triplets and more are read exactly where the first ones are and, after them, the others; and they make what the first ones make,
/// and then what the others make after them.
pub fn triplets_are_read_piece_by_piece()
    ensures read { (before triplets : List Triplet)
        → IsHeard (before ++ triplets) ↔ (IsHeard before × IsHeardBehind before triplets) }
    ensures says { (before triplets : List Triplet)
        → heard_parts (before ++ triplets) ≡ heard_parts before ++ heard_behind before triplets }
{}

/// A part is refused exactly where it is the header of a block that says more bytes than its packet has left after it, and for no
/// other reason.
pub fn overrun_stands_at_the_header()
    ensures refused { (front : Open) (item : Part)
        → (judge_part front item ≡ Refuse why.Overrun) ↔ IsOverrun front item }
    ensures only { (front : Open) (item : Part) (reason : Reason)
        → judge_part front item ≡ Refuse reason → reason ≡ why.Overrun }
{}

/// A byte that isn't the next one of the open packet, as one before the first packet, makes nothing and changes nothing.
pub fn a_byte_of_no_packet_is_passed_over()
    ensures { (front : Open) (value left : ℕ) → (front.left ≡ Some (left + 1) → ⊥)
        → (judge_part front (packet_part.Byte value left) ≡ Nothing)
        × (open_after front (packet_part.Byte value left) ≡ front) }
{}

/// Bytes 00 are never refused: after triplets that are read, one whose two bytes are 00 is read; and one is read with a second byte
/// 00 where it is with another one.
pub fn zeros_are_never_refused()
    ensures both { (triplets : List Triplet) (triplet : Triplet) → IsHeard triplets
        → triplet.a ≡ 0x00 → triplet.b ≡ 0x00
        → IsHeard (triplets ++ triplet ∷ []) }
    ensures second { (triplets : List Triplet) (triplet : Triplet)
        → IsHeard (triplets ++ triplet ∷ [])
        → IsHeard (triplets ++ record triplet { b = 0x00 } ∷ []) }
{}

/// What is written is one block of the given service and bytes, and it is read back as this block, whatever follows it.
pub fn written_is_read_back()
    ensures says { (service : ℕ) (bytes : List ℕ) → 1 ≤ service → service ≤ 63 → 1 ≤ length bytes
        → length bytes ≤ 31
        → block_parts (block_for service bytes) ≡ map (part.Byte service) bytes }
    ensures block { (service : ℕ) (bytes : List ℕ) (room : ℕ) (blocks : List Block) (rest : List ℕ)
        → 1 ≤ service → service ≤ 63
        → 1 ≤ length bytes → length bytes ≤ 31 → length (block_written service bytes) ≤ room
        → AreBlocks (room - length (block_written service bytes)) blocks rest
        → AreBlocks room (block_for service bytes ∷ blocks) (block_written service bytes ++ rest) }
    ensures read { (service : ℕ) (bytes : List ℕ) (room : ℕ) (blocks : List Block) (rest : List ℕ)
        → 1 ≤ service → service ≤ 63
        → 1 ≤ length bytes → length bytes ≤ 31
        → AreBlocks room blocks (block_written service bytes ++ rest)
        → (others : List Block) × (blocks ≡ block_for service bytes ∷ others)
        × AreBlocks (room - length (block_written service bytes)) others rest }
{}
