ghost use Rattle.std.specs.Prelude.{◌≡◌, ◌↔◌, ◌+◌, ◌-◌, ◌%◌, ◌<◌, ◌==◌, if◌then◌else◌, true, ℕ, List, None, IsTrue};
ghost use Rattle.cc_base.specs.declared.step.Step.TheVariants.{Nothing, One, Refuse};
ghost use Rattle.cc_base.specs.declared.why.Why.TheVariants as why;
ghost use Rattle.cc_base.specs.Steps.{IsTaken};
ghost use Rattle.anc_words.specs.declared.open_packet.Next.TheVariants as next;
ghost use Rattle.anc_words.specs.declared.parts.WordPart.TheVariants as part;
ghost use Rattle.anc_words.specs.Reading.{Open, anc_syntax, is_eight_bit, judge_word, nothing_open, words_after};
ghost use Rattle.anc_words.specs.Writing.{nine_bit_word};

use crate::packets::{CAPTION_DID, CAPTION_SDID};
use crate::parts::WordPart;
use crate::words::Word;
use cc_base::{Machine, Step, Why};

/// The word of an ancillary packet that comes next.
#[derive(Clone, Copy, PartialEq, Eq)]
pub(crate) enum Next {
    /// The first word of the flag.
    Zeros,
    /// The second word of the flag.
    Ones,
    /// The third word of the flag.
    MoreOnes,
    /// The data identifier.
    Did,
    /// The secondary data identifier, after this data identifier.
    Sdid { did: u8 },
    /// The count, after these identifiers.
    Count { did: u8, sdid: u8 },
    /// A user word, in a packet of captions or another one; this many more follow it.
    User { is_caption: bool, more: u8 },
    /// The checksum word.
    Checksum,
}

/// What is kept of an ancillary packet while it is read: none of its words, only which comes next, and their sum so far.
#[derive(Clone, Copy)]
pub(crate) struct OpenPacket {
    /// The high byte of a word whose low byte comes next.
    pub(crate) high: Option<u8>,
    /// The word that comes next.
    pub(crate) next: Next,
    /// The sum of the words from DID on, modulo 512.
    pub(crate) sum: u32,
    ghost nine_bits: { sum < 512 },
}

// What comes next where this many user words are left.
fn users(is_caption: bool, left: u8) -> Next
    ensures { result ≡ (if left == 0 then next.Checksum else next.User is_caption (left - 1)) }
{
    match left.checked_sub(1) {
        None => Next::Checksum,
        Some(more) => Next::User { is_caption, more },
    }
}

impl OpenPacket {
    ghost use Rattle.anc_words.specs.Ending.{bytes_to_end};
    ghost use Rattle.anc_words.specs.Readers.{Keeps, next_of, sum_of};

    /// No packet is open.
    pub(crate) fn new() -> OpenPacket
        ensures high { result.high ≡ nothing_open.high }
        ensures next { result.next ≡ next_of nothing_open.words }
        ensures sum { result.sum ≡ sum_of nothing_open.words }
    {
        OpenPacket {
            high: None,
            next: Next::Zeros,
            sum: 0,
        }
    }

    /// Whether nothing is open: no half of a word, and no packet.
    pub(crate) fn is_closed(&self) -> bool
        ensures { IsTrue result ↔ ((self.now.high ≡ None) × (self.now.next ≡ next.Zeros)) }
    {
        matches!((self.high, self.next), (None, Next::Zeros))
    }

    /// The number of bytes that come at least, down to the last one of a packet: this one where one is open.
    pub(crate) fn bytes_to_end(&self) -> usize
        ensures least { (front : Open) → Keeps front self.now → result ≡ bytes_to_end front }
        ensures some { 0 < result }
    {
        let words = match self.next {
            Next::Zeros => 7,
            Next::Ones => 6,
            Next::MoreOnes => 5,
            Next::Did => 4,
            Next::Sdid { .. } => 3,
            Next::Count { .. } => 2,
            Next::User { more, .. } => usize::from(more) + 2,
            Next::Checksum => 1,
        };
        match self.high {
            None => 2 * words,
            Some(_) => 2 * words - 1,
        }
    }

    // Judges a word of the flag.
    fn flag(&mut self, is_right: bool, next: Next) -> Step<WordPart>
        ensures says { result ≡ (if is_right then Nothing else Refuse why.Flag) }
        ensures next { is_right ≡ true → self.new.next ≡ next }
        ensures sum { self.new.sum ≡ self.old.sum }
        ensures high { self.new.high ≡ self.old.high }
    {
        if !is_right {
            return Step::Refuse(Why::Flag);
        }
        self.next = next;
        Step::Nothing
    }

    // Goes on after a word that the checksum goes over.
    fn summed(&mut self, word: u16, next: Next, step: Step<WordPart>) -> Step<WordPart>
        ensures says { result ≡ step }
        ensures next { self.new.next ≡ next }
        ensures sum { self.new.sum ≡ (self.old.sum + word) % 512 }
        ensures high { self.new.high ≡ self.old.high }
    {
        self.sum = (self.sum + u32::from(word)) % 512;
        self.next = next;
        step
    }

    // Judges an 8-bit word that the checksum goes over.
    fn eight_bit(&mut self, word: u16, next: Next, step: Step<WordPart>) -> Step<WordPart>
        ensures says { result ≡ (if is_eight_bit word then step else Refuse why.WordParity) }
        ensures next { is_eight_bit word ≡ true → self.new.next ≡ next }
        ensures sum { is_eight_bit word ≡ true → self.new.sum ≡ (self.old.sum + word) % 512 }
        ensures high { self.new.high ≡ self.old.high }
    {
        if !Word::is_eight_bit(word) {
            return Step::Refuse(Why::WordParity);
        }
        self.summed(word, next, step)
    }

    // Judges the checksum word, which ends the packet.
    fn checksum(&mut self, word: u16) -> Step<WordPart>
        ensures says { result
            ≡ (if word == nine_bit_word self.old.sum then One part.End else Refuse why.AncSum) }
        ensures next { word ≡ nine_bit_word self.old.sum → self.new.next ≡ next.Zeros }
        ensures sum { word ≡ nine_bit_word self.old.sum → self.new.sum ≡ 0 }
        ensures high { self.new.high ≡ self.old.high }
    {
        if word != Word::checksum(self.sum).value {
            return Step::Refuse(Why::AncSum);
        }
        self.next = Next::Zeros;
        self.sum = 0;
        Step::One(WordPart::End)
    }

    // Judges the next word, and goes on after it where it isn't refused.
    fn word(&mut self, word: u16) -> Step<WordPart>
        ensures says { (words : List ℕ) → self.old.next ≡ next_of words
            → self.old.sum ≡ sum_of words → result ≡ judge_word words word }
        ensures next { (words : List ℕ) → self.old.next ≡ next_of words
            → self.old.sum ≡ sum_of words → IsTaken result
            → self.new.next ≡ next_of (words_after words word) }
        ensures sum { (words : List ℕ) → self.old.next ≡ next_of words → self.old.sum ≡ sum_of words
            → IsTaken result
            → self.new.sum ≡ sum_of (words_after words word) }
        ensures high { self.new.high ≡ self.old.high }
    {
        if word > 0x3FF {
            return Step::Refuse(Why::HighBits);
        }
        let low = (word % 256) as u8;
        match self.next {
            Next::Zeros => self.flag(word == 0x000, Next::Ones),
            Next::Ones => self.flag(word == 0x3FF, Next::MoreOnes),
            Next::MoreOnes => self.flag(word == 0x3FF, Next::Did),
            Next::Did => self.eight_bit(word, Next::Sdid { did: low }, Step::Nothing),
            Next::Sdid { did } => self.eight_bit(
                word,
                Next::Count { did, sdid: low },
                Step::Nothing,
            ),
            Next::Count { did, sdid } => {
                let is_caption = did == CAPTION_DID && sdid == CAPTION_SDID;
                let start = WordPart::Start {
                    did,
                    sdid,
                    count: low,
                };
                self.eight_bit(word, users(is_caption, low), Step::One(start))
            }
            Next::User { is_caption, more } => {
                let next = users(is_caption, more);
                let user = Step::One(WordPart::User(word));
                if is_caption {
                    self.eight_bit(word, next, user)
                } else {
                    self.summed(word, next, user)
                }
            }
            Next::Checksum => self.checksum(word),
        }
    }
}

impl Machine<u8, WordPart> for OpenPacket {
    ghost use Rattle.std.proofs.Common.{rules};
    ghost use Rattle.anc_words.specs.Readers.{Keeps};

    ghost Given = { Unit {0} };

    ghost Front = { Open };

    ghost syntax = { λ given. anc_syntax };

    ghost Matches = { λ given front packet. Keeps front packet };

    ghost UNIT = { 2 };

    const UNIT: u64 = 2;

    fn step(&mut self, item: u8) -> Step<WordPart> {
        match self.high {
            None => {
                self.high = Some(item);
                Step::Nothing
            }
            Some(high) => {
                self.high = None;
                self.word(u16::from(high) * 256 + u16::from(item))
            }
        }
    }

    ghost unit_is_positive = { Prim.search rules };

    ghost item_fits = { Prim.search rules };
}
