//! Laws of the definitions: functions without a body, whose contract is the law.

ghost use Rattle.std.specs.Prelude.{◌≡◌, ◌↔◌, ◌+◌, ◌*◌, ◌%◌, ◌<◌, ◌≤◌, ◌++◌, ℕ, List, [], ◌∷◌, Some, None, IsTrue, length};
ghost use Rattle.std.specs.List.{All, flat_map};
ghost use Rattle.cc_base.specs.declared.refusal.Refusal.{Refusal as Refused};
ghost use Rattle.cc_base.specs.declared.step.Step.TheVariants.{Refuse};
ghost use Rattle.cc_base.specs.declared.why.Why.{Why as Reason};
ghost use Rattle.cc_base.specs.declared.why.Why.TheVariants as why;
ghost use Rattle.cc_base.specs.Feeding.{Verdict};
ghost use Rattle.cc_base.specs.Steps.{AreAccepted};
ghost use Rattle.cc_base.specs.Syntax.{AllRead, Reads, open_behind, parts_of, read_under};
ghost use Rattle.anc_words.specs.declared.parts.WordPart.{WordPart as Part};
ghost use Rattle.anc_words.specs.EightBitWords.{IsEightBit};
ghost use Rattle.anc_words.specs.Checksums.{IsChecksum};
ghost use Rattle.anc_words.specs.Reading.{HasRefusedWord, anc_syntax, is_caption, is_eight_bit, judge_byte, judge_ten_bits, judge_word, nothing_open, packet_parts};
ghost use Rattle.anc_words.specs.Refusals.{WordOffends};
ghost use Rattle.anc_words.specs.Ending.{bytes_to_end};
ghost use Rattle.anc_words.specs.Words.{AreWords};
ghost use Rattle.anc_words.specs.Packets.{AncillaryPacket, IsCaption, IsUserWord, IsPacket, user_bytes};
ghost use Rattle.anc_words.specs.CaptionPackets.{IsCaptionAhead};
ghost use Rattle.anc_words.specs.WordsFiles.{ArePackets, IsPacketBytes, IsWordsFile};
ghost use Rattle.anc_words.specs.Writing.{checksum_word, packet_bytes};

/// Bytes are at most one list of words, and words have one list of bytes.
pub fn words_are_spelled_one_way()
    ensures words { (bytes words others : List ℕ) → AreWords bytes words → AreWords bytes others
        → words ≡ others }
    ensures bytes { (bytes others words : List ℕ) → AreWords bytes words → AreWords others words
        → bytes ≡ others }
{}

/// Words are at most one packet, whatever follows them, and a packet has one list of words.
pub fn packets_are_spelled_one_way()
    ensures packet { (packet other : AncillaryPacket) (front back rest after : List ℕ)
        → IsPacket packet front → IsPacket other back → front ++ rest ≡ back ++ after
        → (packet ≡ other) × (front ≡ back) × (rest ≡ after) }
    ensures words { (packet : AncillaryPacket) (words others : List ℕ)
        → IsPacket packet words → IsPacket packet others → words ≡ others }
{}

/// Bytes are at most one packet, whatever bytes follow them, and a packet has one list of bytes.
pub fn packet_bytes_are_spelled_one_way()
    ensures packet { (packet other : AncillaryPacket) (front back rest after : List ℕ)
        → IsPacketBytes packet front → IsPacketBytes other back → front ++ rest ≡ back ++ after
        → (packet ≡ other) × (front ≡ back) × (rest ≡ after) }
    ensures bytes { (packet : AncillaryPacket) (bytes others : List ℕ)
        → IsPacketBytes packet bytes → IsPacketBytes packet others → bytes ≡ others }
{}

/// Each packet whose identifiers are bytes and that has at most 255 user words, as they may be there, can be sent: it has
/// bytes. The user words of a packet that isn't of captions may be any words of ten bits.
pub fn packets_have_bytes()
    ensures bytes { (packet : AncillaryPacket) → packet.did < 256 → packet.sdid < 256
        → length packet.user ≤ 255
        → All (IsUserWord packet) packet.user → (bytes : List ℕ) × IsPacketBytes packet bytes }
    ensures free { (packet : AncillaryPacket) (word : ℕ) → word < 1024 → (IsCaption packet → ⊥)
        → IsUserWord packet word }
{}

/// The packets of captions are exactly those that are written: their bytes are the ones written of the bytes that they
/// carry.
pub fn captions_are_written()
    ensures { (packet : AncillaryPacket) (bytes : List ℕ) → IsCaption packet
        → IsPacketBytes packet bytes
        → bytes ≡ packet_bytes packet.did packet.sdid (user_bytes packet) }
{}

/// Bytes begin with at most one packet of captions. It is as long as its user bytes say: two bytes for each of them, and 14 for
/// the other words.
pub fn captions_ahead_are_found_one_way()
    ensures one { (bytes : List ℕ) (size other : ℕ) (user others : List ℕ)
        → IsCaptionAhead bytes size user → IsCaptionAhead bytes other others
        → (size ≡ other) × (user ≡ others) }
    ensures size { (bytes : List ℕ) (size : ℕ) (user : List ℕ) → IsCaptionAhead bytes size user
        → size ≡ 2 * length user + 14 }
{}

/// What was written is read back: a packet that stands at the front of the bytes written and of any bytes after
/// them has the identifiers and carries the user bytes that were given. Those bytes are left after it.
pub fn written_is_read()
    ensures { (did sdid : ℕ) (user : List ℕ) (packet : AncillaryPacket) (front rest after : List ℕ)
        → did < 256 → sdid < 256 → length user ≤ 255 → All (λ byte. byte < 256) user
        → IsPacketBytes packet front → packet_bytes did sdid user ++ rest ≡ front ++ after
        → (packet.did ≡ did) × (packet.sdid ≡ sdid) × (user_bytes packet ≡ user) × (after ≡ rest) }
{}

/// Words, and the bytes of a file, are at most one list of packets.
pub fn files_are_read_one_way()
    ensures words { (packets others : List AncillaryPacket) (words : List ℕ)
        → ArePackets packets words → ArePackets others words → packets ≡ others }
    ensures bytes { (packets others : List AncillaryPacket) (bytes : List ℕ)
        → IsWordsFile packets bytes → IsWordsFile others bytes → packets ≡ others }
{}

/// No bytes are a file of no packet, a packet's bytes are a file, a file after a file is a file, and a file is its first
/// packet and the file of the others.
pub fn files_are_joined()
    ensures none { IsWordsFile [] [] }
    ensures one { (packet : AncillaryPacket) (bytes : List ℕ)
        → IsPacketBytes packet bytes → IsWordsFile (packet ∷ []) bytes }
    ensures joined { (packets others : List AncillaryPacket) (bytes more : List ℕ)
        → IsWordsFile packets bytes → IsWordsFile others more
        → IsWordsFile (packets ++ others) (bytes ++ more) }
    ensures first { (packet : AncillaryPacket) (packets : List AncillaryPacket) (bytes : List ℕ)
        → IsWordsFile (packet ∷ packets) bytes
        → (front : List ℕ) × (rest : List ℕ) × (bytes ≡ front ++ rest)
        × IsPacketBytes packet front × IsWordsFile packets rest }
{}

/// A file is read: none of its words is refused, they make the parts of its packets, and nothing is open after them. Under a
/// layer that takes these parts they are handed upward, and there is no refusal.
pub fn files_are_read()
    ensures read { (packets : List AncillaryPacket) (bytes : List ℕ) → IsWordsFile packets bytes
        → Reads anc_syntax nothing_open bytes (flat_map packet_parts packets) nothing_open }
    ensures handed { (verdict : Verdict Part) (packets : List AncillaryPacket) (bytes : List ℕ)
        → IsWordsFile packets bytes
        → AreAccepted verdict [] (flat_map packet_parts packets)
        → read_under anc_syntax 2 verdict bytes
        ≡ record { parts = flat_map packet_parts packets; refusal = None } }
{}

/// What is read is a file: bytes of which no word is refused and after which nothing is open are packets. Where there is no
/// refusal, no word was refused, and the layer above took all parts.
pub fn what_is_read_is_a_file()
    ensures file { (bytes : List ℕ) → All (λ byte. byte < 256) bytes → AllRead anc_syntax bytes
        → open_behind anc_syntax bytes ≡ nothing_open
        → (packets : List AncillaryPacket) × IsWordsFile packets bytes }
    ensures unrefused { (verdict : Verdict Part) (bytes : List ℕ)
        → (read_under anc_syntax 2 verdict bytes).refusal ≡ None
        → AllRead anc_syntax bytes × AreAccepted verdict [] (parts_of anc_syntax bytes) }
{}

/// Words none of which is refused begin some file, and no file begins with words whose last one is refused.
pub fn a_word_is_refused_where_no_file_goes_on()
    ensures begun { (bytes words : List ℕ) → AreWords bytes words → AllRead anc_syntax bytes
        → (more : List ℕ) × ((packets : List AncillaryPacket)
        × IsWordsFile packets (bytes ++ more)) }
    ensures refused { (bytes : List ℕ) (byte : ℕ) (reason : Reason) (more : List ℕ)
        (packets : List AncillaryPacket)
        → judge_byte (open_behind anc_syntax bytes) byte ≡ Refuse reason
        → IsWordsFile packets (bytes ++ byte ∷ more) → ⊥ }
{}

/// A packet ends no sooner than its count says: fewer bytes than come at least, down to the last one of a packet, end none.
pub fn a_packet_ends_no_sooner()
    ensures { (bytes more : List ℕ) (packets : List AncillaryPacket) → 0 < length more
        → length more < bytes_to_end (open_behind anc_syntax bytes)
        → IsWordsFile packets (bytes ++ more) → ⊥ }
{}

/// The tests by which words are judged say what they are named for, and a word's high bits come before all else. A word is
/// refused exactly where it offends by the words of its packet, and for that reason.
pub fn words_are_judged_by_the_standard()
    ensures high_bits { (words : List ℕ) (word : ℕ) → 1024 ≤ word
        → judge_word words word ≡ Refuse why.HighBits }
    ensures ten_bits { (words : List ℕ) (word : ℕ) → word < 1024
        → judge_word words word ≡ judge_ten_bits words word }
    ensures eight_bit { (word : ℕ) → IsTrue (is_eight_bit word) ↔ IsEightBit (word % 256) word }
    ensures caption { (did sdid : ℕ)
        → IsTrue (is_caption did sdid) ↔ ((did % 256 ≡ 0x61) × (sdid % 256 ≡ 0x01)) }
    ensures checksum { (words : List ℕ) (word : ℕ)
        → (word ≡ checksum_word words) ↔ IsChecksum words word }
    ensures refused { (words : List ℕ) (word : ℕ) (reason : Reason)
        → (judge_word words word ≡ Refuse reason) ↔ WordOffends words word reason }
{}

/// Bytes are refused at their first refused word. The place is the number of the word's first byte. The reason is the word's own, by
/// the words before it, or the reason of the layer above for the part which the word completes.
pub fn a_refusal_is_of_the_first_refused_word()
    ensures { (verdict : Verdict Part) (bytes : List ℕ) (refused : Refused)
        → (read_under anc_syntax 2 verdict bytes).refusal ≡ Some refused
        → HasRefusedWord verdict bytes refused }
{}
