//! Worked examples of the definitions, as laws: functions without a body, whose contract is the example.

ghost use Rattle.std.specs.Prelude.{◌≡◌, true, false, [], ◌∷◌, ◌++◌, None, replicate};
ghost use Rattle.cc_base.specs.Syntax.{parts_of};
ghost use Rattle.channel_packets.specs.declared.parts.PacketPart.TheVariants as part;
ghost use Rattle.channel_packets.specs.ChannelPackets.{AreChannelPackets};
ghost use Rattle.channel_packets.specs.Reading.{packet_syntax};
ghost use Rattle.channel_packets.specs.Written.{continuing, starting};

mod reading;
mod writing;

// A packet whose size code is 0 has 127 bytes after its header, one in the header's triplet and two in each of 63 more; further
// bytes belong to no packet.
fn a_size_code_of_0_is_127_bytes()
    ensures { AreChannelPackets (record { header = 0x40; bytes = replicate 127 0x41 } ∷ [])
        (starting 0x40 0x41 ∷ (replicate 63 (continuing 0x41 0x41) ++ continuing 0x42 0x42 ∷ [])) }
{}

// A packet of 5 bytes is cut short by the start of the next one, after 3.
fn a_start_cuts_a_packet_short()
    ensures { AreChannelPackets (record { header = 0x03; bytes = 1 ∷ 2 ∷ 3 ∷ [] } ∷ record { header = 0x42; bytes = 4 ∷ 5 ∷ 6 ∷ [] } ∷ [])
        (starting 0x03 1 ∷ continuing 2 3 ∷ starting 0x42 4 ∷ continuing 5 6 ∷ []) }
{}

// Bytes before the first packet, and after a whole one, belong to no packet.
fn bytes_without_an_open_packet_are_left_out()
    ensures { AreChannelPackets (record { header = 0x01; bytes = 3 ∷ [] } ∷ [])
        (continuing 1 2 ∷ starting 0x01 3 ∷ continuing 4 5 ∷ []) }
{}

// Line 21 pairs, and triplets that don't count, whatever their kind, stand in no packet and end none.
fn other_triplets_are_passed_over()
    ensures { AreChannelPackets (record { header = 0x02; bytes = 1 ∷ 2 ∷ 3 ∷ [] } ∷ [])
        (starting 0x02 1
        ∷ record { valid = true; kind = 0; a = 0x94; b = 0x20 } ∷ record { valid = true; kind = 1; a = 0x80; b = 0x80 }
        ∷ record { valid = false; kind = 3; a = 0x41; b = 7 } ∷ record { valid = false; kind = 2; a = 8; b = 9 }
        ∷ continuing 2 3 ∷ []) }
{}

// An unfinished packet may stand at the end of a file: it has the bytes that came.
fn the_last_packet_may_be_unfinished()
    ensures packet { AreChannelPackets (record { header = 0x03; bytes = 1 ∷ [] } ∷ []) (starting 0x03 1 ∷ []) }
    ensures parts { parts_of packet_syntax (starting 0x03 1 ∷ []) ≡ part.Header false 5 ∷ part.Byte 1 4 ∷ [] }
{}

// The numbers 0, 1 and 3 have a gap before the last, 2, 3 and 0 have none, and the first packet makes none, whatever its number is.
fn a_missing_number_is_a_gap()
    ensures missing { parts_of packet_syntax (starting 0x01 7 ∷ starting 0x41 8 ∷ starting 0xC1 9 ∷ [])
        ≡ part.Header false 1 ∷ part.Byte 7 0 ∷ part.Header false 1 ∷ part.Byte 8 0 ∷ part.Header true 1 ∷ part.Byte 9 0 ∷ [] }
    ensures next { parts_of packet_syntax (starting 0x81 7 ∷ starting 0xC1 8 ∷ starting 0x01 9 ∷ [])
        ≡ part.Header false 1 ∷ part.Byte 7 0 ∷ part.Header false 1 ∷ part.Byte 8 0 ∷ part.Header false 1 ∷ part.Byte 9 0 ∷ [] }
    ensures same { parts_of packet_syntax (starting 0x01 7 ∷ starting 0x01 8 ∷ [])
        ≡ part.Header false 1 ∷ part.Byte 7 0 ∷ part.Header true 1 ∷ part.Byte 8 0 ∷ [] }
{}
