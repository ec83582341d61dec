//! Worked examples of the definitions, as laws: functions without a body, whose contract is the example.

ghost use Rattle.std.specs.Prelude.{◌≡◌, [], ◌∷◌, ◌++◌, take};
ghost use Rattle.std.specs.List.{flat_map};
ghost use Rattle.cc_base.specs.declared.rate.Rate.TheVariants as rate;
ghost use Rattle.cc_base.specs.declared.why.Why.TheVariants as why;
ghost use Rattle.anc_words.specs.Writing.{word_bytes};
ghost use Rattle.carriage_tests.specs.ExampleWords.{frame_without_captions};
ghost use Rattle.words_files.specs.Offences.{FirstOffendingWord};
ghost use Rattle.channel_packets.specs.Written.{continuing, starting};
ghost use Rattle.dtvcc_screen.specs.Meaning.{Byte, Reset, Tick};
ghost use Rattle.service_blocks.specs.declared.parts.BlockPart.TheVariants as part;
ghost use Rattle.services_files.specs.Events.{service_events};
ghost use Rattle.carriage_tests.specs.ExampleFrames.{example_frame};
ghost use Rattle.services_files.specs.CaptionChannel.{caption_channel};
ghost use Rattle.services_files.specs.Said.{said_behind, said_in};

// The third triplet of the frame is FF 02 3F: it starts a packet with three bytes after its header, and the first of these is the
// header of a block of 31 bytes. It offends in its own word, the third of the triplet.
fn a_header_overruns_in_a_third_byte()
    ensures { FirstOffendingWord caption_channel (take 42 frame_without_captions ++ flat_map word_bytes (0x2FF ∷ 0x102 ∷ 0x23F ∷ []))
        (record { place = 46; why = why.Overrun }) }
{}

// FE 22 goes on after FF 02 20, a packet with three bytes of which the first is a header without a block. There 22 is the header
// of a block of two bytes where one is left. It offends in its own word, the second of the triplet.
fn a_header_overruns_in_a_second_byte()
    ensures { FirstOffendingWord caption_channel (take 42 frame_without_captions ++ flat_map word_bytes (0x2FF ∷ 0x102 ∷ 0x120 ∷ 0x1FE ∷ 0x222 ∷ []))
        (record { place = 50; why = why.Overrun }) }
{}

// Two frames: the packet FF 02 21, FE 41 00 with a byte of service 1, and after a gap the packet FF 82 42, FE 43 44 with two bytes of
// service 2. Each service is given a tick a frame, its own bytes, and the reset.
fn each_service_is_given_its_bytes()
    ensures first { service_events 1 (example_frame (0xFF ∷ 0x02 ∷ 0x21 ∷ 0xFE ∷ 0x41 ∷ 0x00 ∷ []) ∷ example_frame (0xFF ∷ 0x82 ∷ 0x42 ∷ 0xFE ∷ 0x43 ∷ 0x44 ∷ []) ∷ [])
        ≡ Tick rate.F2997 ∷ Byte 0x41 ∷ Tick rate.F2997 ∷ Reset ∷ [] }
    ensures second { service_events 2 (example_frame (0xFF ∷ 0x02 ∷ 0x21 ∷ 0xFE ∷ 0x41 ∷ 0x00 ∷ []) ∷ example_frame (0xFF ∷ 0x82 ∷ 0x42 ∷ 0xFE ∷ 0x43 ∷ 0x44 ∷ []) ∷ [])
        ≡ Tick rate.F2997 ∷ Tick rate.F2997 ∷ Reset ∷ Byte 0x43 ∷ Byte 0x44 ∷ [] }
{}

// Two packets of three bytes. The first is 02 with 22 41 42, a block of two bytes of service 1. The second, after a gap, is 82 with
// 43 44 45, whose block of service 2 says three bytes and is cut short after two. After the first packet, the second one says its
// own bytes and the reset.
fn triplets_say_what_their_blocks_say()
    ensures all { said_in (starting 0x02 0x22 ∷ continuing 0x41 0x42 ∷ starting 0x82 0x43 ∷ continuing 0x44 0x45 ∷ [])
        ≡ part.Byte 1 0x41 ∷ part.Byte 1 0x42 ∷ part.Reset ∷ part.Byte 2 0x44 ∷ part.Byte 2 0x45 ∷ [] }
    ensures behind { said_behind (starting 0x02 0x22 ∷ continuing 0x41 0x42 ∷ []) (starting 0x82 0x43 ∷ continuing 0x44 0x45 ∷ [])
        ≡ part.Reset ∷ part.Byte 2 0x44 ∷ part.Byte 2 0x45 ∷ [] }
{}
