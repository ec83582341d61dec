//! Laws of the definitions: functions without a body, whose contract is the law.

ghost use Rattle.std.specs.Prelude.{◌≡◌, ℕ, List, None};
ghost use Rattle.mcc_files.specs.MccFiles.{TimedPackets};
ghost use Rattle.mcc_words.specs.Calls.{CallsMake};
ghost use Rattle.mcc_words.specs.Close.{AreClose, HaveBytes, words_as_they_came};
ghost use Rattle.mcc_words.specs.MccWords.{AreMccWords};

/// The calls of a maker make the words of a file's packets, one packet after another. For a packet of captions they are `begin_captions`,
/// its missing frames one by one and `put_captions`; the words of another packet are as they came.
pub fn calls_make_the_words()
    ensures { CallsMake }
{}

/// Where no frame is missing between packets of captions, the words are the packets' own, byte for byte as they came.
pub fn packets_without_gaps_stand_as_they_came()
    ensures { (placed : TimedPackets) (bytes : List ℕ) → AreClose None placed → HaveBytes placed
        → AreMccWords placed bytes → bytes ≡ words_as_they_came placed }
{}
