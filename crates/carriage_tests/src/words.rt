//! Worked examples of the definitions, as laws: functions without a body, whose contract is the example. No layer stands above
//! distribution packets here.

ghost use Rattle.std.specs.Prelude.{◌≡◌, ℕ, ◌<◌, List, [], ◌∷◌, length, take};
ghost use Rattle.cc_base.specs.declared.why.Why.TheVariants as why;
ghost use Rattle.cdp_packets.specs.Packets.{Frame};
ghost use Rattle.words_files.specs.Catching.{never};
ghost use Rattle.carriage_tests.specs.ExampleWords.{frame_without_captions};
ghost use Rattle.words_files.specs.Offences.{FirstOffendingWord, IsCutShort, IsFileUnder};
ghost use Rattle.words_files.specs.Verdicts.{layers_of};

// No bytes are a file without frames.
fn no_bytes_are_a_file()
    ensures { IsFileUnder (layers_of never) [] [] }
{}

// Words have ten bits: 0400 offends, whatever stands before it.
fn high_bits_offend()
    ensures first { FirstOffendingWord (layers_of never) (0x04 ∷ 0x00 ∷ []) (record { place = 0; why = why.HighBits }) }
    ensures later { FirstOffendingWord (layers_of never) (0x00 ∷ 0x00 ∷ 0x04 ∷ 0x00 ∷ []) (record { place = 2; why = why.HighBits }) }
{}

// The ancillary data flag is 000 3FF 3FF.
fn another_flag_offends()
    ensures { FirstOffendingWord (layers_of never) (0x00 ∷ 0x00 ∷ 0x03 ∷ 0xFF ∷ 0x03 ∷ 0xFE ∷ []) (record { place = 4; why = why.Flag }) }
{}

// DID is an 8-bit word: for 61 it is 161.
fn a_wrong_parity_offends()
    ensures { FirstOffendingWord (layers_of never) (0x00 ∷ 0x00 ∷ 0x03 ∷ 0xFF ∷ 0x03 ∷ 0xFF ∷ 0x02 ∷ 0x61 ∷ [])
        (record { place = 6; why = why.WordParity }) }
{}

// No distribution packet has 12 bytes, so a packet of captions whose count is 12 offends with this word.
fn a_count_of_12_offends()
    ensures { FirstOffendingWord (layers_of never) (0x00 ∷ 0x00 ∷ 0x03 ∷ 0xFF ∷ 0x03 ∷ 0xFF ∷ 0x01 ∷ 0x61 ∷ 0x01 ∷ 0x01 ∷ 0x02 ∷ 0x0C ∷ [])
        (record { place = 10; why = why.Length }) }
{}

// A packet of 73 bytes has 62 bytes of sections, as many as the first two of a cc_data section and 20 triplets, so the
// count byte F4 passes, and F5 offends.
fn a_count_of_21_triplets_offends()
    ensures { FirstOffendingWord (layers_of never) (0x00 ∷ 0x00 ∷ 0x03 ∷ 0xFF ∷ 0x03 ∷ 0xFF ∷ 0x01 ∷ 0x61 ∷ 0x01 ∷ 0x01 ∷ 0x01 ∷ 0x49
        ∷ 0x02 ∷ 0x96 ∷ 0x02 ∷ 0x69 ∷ 0x01 ∷ 0x49 ∷ 0x01 ∷ 0x4F ∷ 0x01 ∷ 0x43 ∷ 0x02 ∷ 0x00 ∷ 0x02 ∷ 0x00
        ∷ 0x02 ∷ 0x72 ∷ 0x02 ∷ 0xF5 ∷ []) (record { place = 28; why = why.Count }) }
{}

// The sum of 161, 102 and 200 is 463, so the checksum word of a packet 61/02 without user words is 263.
fn a_wrong_checksum_offends()
    ensures { FirstOffendingWord (layers_of never) (0x00 ∷ 0x00 ∷ 0x03 ∷ 0xFF ∷ 0x03 ∷ 0xFF ∷ 0x01 ∷ 0x61 ∷ 0x01 ∷ 0x02 ∷ 0x02 ∷ 0x00
        ∷ 0x02 ∷ 0x62 ∷ []) (record { place = 12; why = why.AncSum }) }
{}

// Half a word is cut short, whatever its byte is, and so is a packet that isn't whole.
fn what_is_open_is_cut_short()
    ensures half { IsCutShort (layers_of never) (0xFF ∷ []) (record { place = 1; why = why.Truncated }) }
    ensures flag { IsCutShort (layers_of never) (0x00 ∷ 0x00 ∷ 0x03 ∷ []) (record { place = 3; why = why.Truncated }) }
    ensures packet { IsCutShort (layers_of never) (0x00 ∷ 0x00 ∷ 0x03 ∷ 0xFF ∷ 0x03 ∷ 0xFF ∷ 0x01 ∷ 0x61 ∷ 0x01 ∷ 0x01 ∷ 0x01 ∷ 0x49
        ∷ 0x02 ∷ 0x96 ∷ []) (record { place = 14; why = why.Truncated }) }
{}

// A packet of captions is a file of one frame, and cut anywhere it is cut short there.
fn a_packet_is_a_file_of_one_frame()
    ensures { (frames : List Frame) × IsFileUnder (layers_of never) frames frame_without_captions × (length frames ≡ 1) }
{}

fn a_packet_cut_anywhere_is_cut_short()
    ensures { (k : ℕ) → 0 < k → k < 160
        → IsCutShort (layers_of never) (take k frame_without_captions) (record { place = k; why = why.Truncated }) }
{}
