//! Worked examples of the definitions, as laws: functions without a body, whose contract is the example.

ghost use Rattle.std.specs.Prelude.{◌≡◌, [], ◌∷◌};
ghost use Rattle.channel_packets.specs.Written.{continuing, starting};
ghost use Rattle.service_blocks.specs.declared.parts.BlockPart.TheVariants as part;
ghost use Rattle.service_blocks.specs.ServiceBlocks.{AreBlocks};
ghost use Rattle.service_blocks.specs.Channels.{AreChannel, IsHeard, heard_parts};

mod reading;
mod writing;

// The triplets FF 02 E1 and FE 0A 41 are one packet of one block with a second header byte, whose one byte is of service 10.
fn a_second_header_byte_has_the_service()
    ensures channel { AreChannel (record { header = 0x02; bytes = 0xE1 ∷ 0x0A ∷ 0x41 ∷ [] } ∷ [])
        ((record { header = 0xE1; rest = 0x0A ∷ 0x41 ∷ [] } ∷ []) ∷ []) (starting 0x02 0xE1 ∷ continuing 0x0A 0x41 ∷ []) }
    ensures says { heard_parts (starting 0x02 0xE1 ∷ continuing 0x0A 0x41 ∷ []) ≡ part.Byte 10 0x41 ∷ [] }
{}

// The triplet FF 02 3F has a block of 31 bytes in a packet with two bytes left: it is refused.
fn a_block_that_passes_its_packet_is_no_channel()
    ensures { IsHeard (starting 0x02 0x3F ∷ []) → ⊥ }
{}

// A block is cut short where its packet is, by the start of the next one: of the two bytes of service 1 one came.
fn a_block_is_cut_short_with_its_packet()
    ensures blocks { AreBlocks 3 (record { header = 0x22; rest = 0x41 ∷ [] } ∷ []) (0x22 ∷ 0x41 ∷ []) }
    ensures says { heard_parts (starting 0x02 0x21 ∷ continuing 0x41 0x22 ∷ starting 0x41 0x00 ∷ []) ≡ part.Byte 1 0x41 ∷ [] }
    ensures cut { heard_parts (starting 0x03 0x23 ∷ continuing 0x41 0x42 ∷ starting 0x41 0x00 ∷ []) ≡ part.Byte 1 0x41 ∷ part.Byte 1 0x42 ∷ [] }
{}

// A header 00 ends the blocks of its packet, whatever follows it.
fn a_header_of_00_ends_the_blocks()
    ensures blocks { AreBlocks 5 (record { header = 0x21; rest = 0x41 ∷ [] } ∷ []) (0x21 ∷ 0x41 ∷ 0x00 ∷ 0x3F ∷ 0x42 ∷ []) }
    ensures says { heard_parts (starting 0x03 0x21 ∷ continuing 0x41 0x00 ∷ continuing 0x3F 0x42 ∷ []) ≡ part.Byte 1 0x41 ∷ [] }
{}

// A missing packet is a reset, after the bytes before it.
fn a_gap_is_a_reset()
    ensures { heard_parts (starting 0x02 0x21 ∷ continuing 0x41 0x00 ∷ starting 0x82 0x22 ∷ continuing 0x42 0x43 ∷ [])
        ≡ part.Byte 1 0x41 ∷ part.Reset ∷ part.Byte 1 0x42 ∷ part.Byte 1 0x43 ∷ [] }
{}
