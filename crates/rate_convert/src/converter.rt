ghost use Rattle.std.specs.Prelude.{◌≡◌, ◌≢◌, ◌<◌, ◌≤◌, ◌++◌, ◌∷◌, [], ℕ, List, None, IfErr, IfOk, IsOk, MatchOption, length};
ghost use Rattle.std.specs.Result.{result_err};
ghost use Rattle.cc_receiver.specs.Feeds.{Feeds};
ghost use Rattle.cc_receiver.specs.Receivers.{receiver_refusal};
ghost use Rattle.cc_receiver.specs.declared.receiver.Ended.TheVariants as ended;
ghost use Rattle.cdp_packets.specs.Packets.{Frame};
ghost use Rattle.services_files.specs.CaptionChannel.{caption_channel};
ghost use Rattle.words_files.specs.FramesOf.{AreFramesOf};
ghost use Rattle.words_files.specs.Offences.{IsFileUnder, IsMalformed};

use crate::halver::Halver;
use arrayvec::ArrayVec;
use cc_base::Refusal;
use cc_receiver::{Ended, Fed, Receiver};
use findings::Misfit;
use std::alloc::{AllocError, Global};

/// Converts a words file at 29.97 frames a second, whose bytes come in any pieces, to one at 59.94: each frame becomes two (SMPTE ST
/// 334-1 and ST 334-2; CTA-708-E, cc_data()). The first has the triplet of field 1 and up to nine of channel packets, the second has
/// field 2's and the others. It tells where a frame can't be converted, or something else would be seen (`Misfit`).
///
/// Other sections than cc_data, and ancillary packets that aren't of captions, are left out. It refuses what a `Receiver` refuses.
/// All memory that it ever takes is taken by `new`.
#[derive(Drop)]
pub struct Converter {
    input: Receiver,
    halver: Halver,
}

impl Converter {
    ghost use Rattle.rate_convert.specs.Converters.{ConvertsOn, HasConverted, converted_frames, converter_misfit, input_of};
    ghost use Rattle.rate_convert.specs.Halvers.{halves_words};
    ghost use Rattle.rate_convert.specs.Misfits.{AreFit, HasMisfit};

    /// A converter that was fed nothing. The error comes if memory for its screens and services isn't found.
    pub fn new(alloc: Global) -> Result<Converter, AllocError>
        ensures { IfOk result (HasConverted []) }
    {
        Ok(Converter {
            input: Receiver::new(alloc)?,
            halver: Halver::new(alloc)?,
        })
    }

    /// Reads the next bytes, up to the end of an ancillary packet: it stops after the word that ends one. Fewer than 2,147,483,647
    /// frames have ended before, none with a misfit. A word is refused where and for what a `Receiver` refuses it; a refusal is kept and
    /// answered from then on, with nothing read.
    pub fn feed(&mut self, bytes: &[u8]) -> Result<Fed, Refusal>
        requires few { converted_frames self.now < 2147483647 }
        requires none { converter_misfit self.now ≡ None }
        requires on { (before : List ℕ) × HasConverted before self.old }
        ensures converts { (before : List ℕ) → HasConverted before self.old
            → ConvertsOn before bytes.now self.new result }
        ensures feeds { (before : List ℕ) → HasConverted before self.old
            → Feeds before bytes.now (input_of self.old) (input_of self.new) result }
        ensures within { IfOk result (λ fed. fed.used ≤ length bytes.now) }
        ensures all { IfOk result (λ fed. fed.ended ≡ ended.No → fed.used ≡ length bytes.now) }
        ensures some { IfOk result (λ fed. fed.ended ≢ ended.No → 0 < fed.used) }
        ensures told { receiver_refusal (input_of self.new) ≡ result_err result }
    {
        let fed = self.input.feed(bytes)?;
        match fed.ended {
            Ended::Caption => {
                self.halver.frame(&self.input);
                Ok(fed)
            }
            _ => Ok(fed),
        }
    }

    /// Says whether the bytes fed may end here. Else it answers the kept refusal, if there is one, or `Truncated`, at the number of
    /// bytes fed, where bytes were fed and the last of them doesn't end a packet.
    pub fn finish(&self) -> Result<(), Refusal>
        ensures whole { (bytes : List ℕ) → HasConverted bytes self.now → IsOk result
            → (frames : List Frame) × IsFileUnder caption_channel frames bytes }
        ensures file { (bytes : List ℕ) (frames : List Frame) → HasConverted bytes self.now
            → IsFileUnder caption_channel frames bytes
            → IsOk result }
        ensures malformed { (bytes : List ℕ) → HasConverted bytes self.now
            → IfErr result (λ refused. IsMalformed caption_channel bytes refused) }
    {
        self.input.finish()
    }

    /// The number of whole frames.
    pub fn frames(&self) -> u32
        ensures count { result ≡ converted_frames self.now }
        ensures frames { (bytes : List ℕ) (frames : List Frame) → HasConverted bytes self.now
            → AreFramesOf caption_channel frames bytes
            → result ≡ length frames }
    {
        self.input.frames()
    }

    /// The misfit of the last whole frame, if there is one and it has one.
    pub fn misfit(&self) -> Option<Misfit>
        ensures told { result ≡ converter_misfit self.now }
        ensures exact { (bytes : List ℕ) (frames : List Frame) → HasConverted bytes self.now
            → AreFramesOf caption_channel frames bytes
            → MatchOption result (AreFit frames) (HasMisfit frames) }
    {
        self.halver.misfit()
    }

    /// The bytes of the two ancillary packets that the last whole frame becomes, which has no misfit (SMPTE ST 334-1 and ST 334-2).
    /// They are a words file of the frames whose numbers are twice its own and one more.
    pub fn words(&self) -> ArrayVec<u8, 200>
        requires some { 0 < converted_frames self.now }
        requires none { converter_misfit self.now ≡ None }
        ensures { (bytes : List ℕ) (earlier : List Frame) (last : Frame)
            → HasConverted bytes self.now
            → AreFramesOf caption_channel (earlier ++ last ∷ []) bytes
            → result.items ≡ halves_words (length earlier) last }
    {
        self.halver.words()
    }
}
