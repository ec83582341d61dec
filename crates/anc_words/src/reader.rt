ghost use Rattle.std.specs.Prelude.{◌≡◌, ◌↔◌, ◌<◌, ◌%◌, ◌^◌, ◌++◌, ℕ, List, [], None, Some, IfErr, IsOk, IsTrue, length};
ghost use Rattle.std.specs.Result.{result_err};
ghost use Rattle.cc_base.specs.declared.refusal.Refusal.{Refusal as Refused};
ghost use Rattle.cc_base.specs.declared.why.Why.TheVariants as why;
ghost use Rattle.cc_base.specs.Feeding.{place_by};
ghost use Rattle.cc_base.specs.Syntax.{judge_by, open_behind};
ghost use Rattle.anc_words.specs.Packets.{AncillaryPacket};
ghost use Rattle.anc_words.specs.Reading.{anc_syntax, nothing_open};
ghost use Rattle.anc_words.specs.WordsFiles.{IsPacketBytes, IsWordsFile};

use crate::caption_packet::CaptionPacket;
use crate::open_packet::OpenPacket;
use crate::parts::WordPart;
use cc_base::{Fed, Refusal, Resume, Upward, Why};

/// Reads the bytes of a words file, in any pieces: ancillary packets one after another, each ten-bit word as two bytes, the
/// high one first (SMPTE ST 291-1). It hands the parts of the packets upward.
///
/// A word is refused with its low byte, in this order: `HighBits` above 3FF, `Flag` where one of the first three words is
/// another one, `WordParity` and `AncSum`, and then for the reason of the layer above. `WordParity` is the reason if DID,
/// SDID, the count, or a user word of captions (DID 61, SDID 01) has a wrong bit 8 or 9, and `AncSum` if the checksum word is
/// another one. The place is the number of the word's first byte. The reader keeps counts and a sum, and none of the words.
#[derive(Clone, Copy)]
pub struct WordReader {
    fed: Fed<OpenPacket>,
}

impl WordReader {
    ghost use Rattle.anc_words.specs.Ending.{bytes_to_end};
    ghost use Rattle.anc_words.specs.CaptionPackets.{caption_packet_size};
    ghost use Rattle.anc_words.specs.Readers.{HasRead, kept_refusal};

    /// A reader that was fed nothing.
    pub fn new() -> WordReader
        ensures { HasRead [] result }
    {
        WordReader {
            fed: Fed::new(OpenPacket::new()),
        }
    }

    /// The number of bytes that come at least, down to the last one of an ancillary packet: of the open one, or of the next one
    /// where none is open. Fewer bytes end no packet.
    pub fn bytes_to_end(&self) -> usize
        ensures least { (bytes : List ℕ) → HasRead bytes self.now
            → result ≡ bytes_to_end (open_behind anc_syntax bytes) }
        ensures some { 0 < result }
    {
        self.fed.machine.bytes_to_end()
    }

    /// Whether nothing is open: no word was refused, and the bytes fed may end here.
    pub fn is_closed(&self) -> bool
        ensures closed { (bytes : List ℕ) → HasRead bytes self.now
            → (IsTrue result ↔ (open_behind anc_syntax bytes ≡ nothing_open)) }
        ensures unrefused { IsTrue result → kept_refusal self.now ≡ None }
    {
        self.fed.refusal.is_none() && self.fed.machine.is_closed()
    }

    /// Passes over the bytes of a whole packet of captions, as if they were fed, where nothing is open: their number is
    /// counted, and nothing is handed upward.
    pub fn pass_over(&mut self, packet: &CaptionPacket<'_>)
        ensures passed { (before piece : List ℕ) (said : AncillaryPacket) → HasRead before self.old
            → open_behind anc_syntax before ≡ nothing_open
            → IsPacketBytes said piece → length piece ≡ caption_packet_size packet.now
            → HasRead (before ++ piece) self.new }
        ensures refusal { kept_refusal self.new ≡ kept_refusal self.old }
    {
        self.fed.taken = self.fed.taken.wrapping_add(packet.size() as u64);
    }

    /// The kept refusal, if a word was refused.
    pub fn refusal(&self) -> Option<Refusal>
        ensures { result ≡ kept_refusal self.now }
    {
        self.fed.refusal
    }

    /// Says whether the bytes fed may end here. Else it answers the kept refusal, if there is one, or `Truncated`, at the
    /// number of bytes fed, where bytes were fed and the last of them doesn't end a packet.
    pub fn finish(&self) -> Result<(), Refusal>
        ensures kept { (refused : Refused) → kept_refusal self.now ≡ Some refused
            → result_err result ≡ Some refused }
        ensures whole { (bytes : List ℕ) → HasRead bytes self.now → IsOk result
            → (packets : List AncillaryPacket) × IsWordsFile packets bytes }
        ensures file { (bytes : List ℕ) (packets : List AncillaryPacket) → HasRead bytes self.now
            → IsWordsFile packets bytes → IsOk result }
        ensures cut { (bytes : List ℕ) → HasRead bytes self.now
            → IfErr result (λ refused. (refused.why ≡ why.Truncated)
            × (refused.place ≡ length bytes % 2 ^ 64)) }
    {
        if let Some(refusal) = self.fed.refusal {
            return Err(refusal);
        }
        if self.fed.machine.is_closed() {
            return Ok(());
        }
        Err(Refusal {
            place: self.fed.taken,
            why: Why::Truncated,
        })
    }
}

impl Resume<u8, WordPart> for WordReader {
    ghost use Rattle.std.proofs.Common.{rules};
    ghost use Rattle.anc_words.specs.Readers.{HasRead, kept_refusal};

    ghost Given = { Unit {0} };

    ghost judge = { λ given. judge_by anc_syntax };

    ghost place = { place_by 2 };

    ghost Leads = { λ given bytes reader. HasRead bytes reader };

    ghost refusal = { λ reader. kept_refusal reader };

    fn feed<U: Upward<WordPart>>(&mut self, input: &[u8], up: &mut U) -> Result<(), Refusal> {
        self.fed.feed(input, up)
    }

    ghost is_open = { λ given bytes reader led. led.1.unrefused };

    ghost item_fits = { Prim.search rules };
}
