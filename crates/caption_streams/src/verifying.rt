ghost use Rattle.std.specs.Prelude.{◌≡◌, ◌≤◌, ◌⊎◌, ℕ, List, IfErr, IfOk, length};
ghost use Rattle.cc_verifier.specs.Verifiers.{HasVerified};
ghost use Rattle.command_base.specs.declared.status.Status.TheVariants as status;
ghost use Rattle.cue_list_commands.specs.Accepted.{IsRefusedList};

use crate::fault::FeedFault;
use crate::slice_source::SliceSource;
use cc_receiver::Fed;
use cc_verifier::{Verdict, Verifier};
use command_base::{Place, Status};
use cue_list_commands::read_list;
use findings::Finding;
use std::alloc::Global;

/// Words on their way through a verifier against a cue list.
///
/// All memory that it ever takes is taken by `read`.
#[derive(Drop)]
pub struct Verifying {
    pub(crate) verifier: Verifier,
}

impl Verifying {
    ghost use Rattle.cc_verifier.specs.Verifiers.{list_of, verified_frames};
    ghost use Rattle.caption_streams.specs.Verifications.{AnswersVerified, BeginsVerifying, IsVerdictOn, finding_in, verifier_of};

    /// Reads a cue list and judges it: a verifier against it that was fed nothing, or the status with which the list is refused, or Memory.
    pub fn read(alloc: Global, list: &[u8]) -> Result<Verifying, Status>
        ensures begins { IfOk result (BeginsVerifying list.now) }
        ensures refused { IfErr result
            (λ answer. (answer ≡ status.Memory) ⊎ IsRefusedList list.now answer) }
    {
        let list = read_list(alloc, &mut SliceSource::new(list))?;
        match Verifier::new(alloc, list) {
            Ok(verifier) => Ok(Verifying { verifier }),
            Err(_) => Err(Status::Memory),
        }
    }

    /// Reads the next bytes, up to the end of an ancillary packet: it stops after the word that ends one. Found comes if something was
    /// found, at a frame that ended before; TooManyFrames where 4,294,967,295 frames have ended; Refused where no file can continue with a word,
    /// and from then on.
    pub fn feed(&mut self, bytes: &[u8]) -> Result<Fed, FeedFault>
        requires { (before : List ℕ) × HasVerified before (verifier_of self.old) }
        ensures list { list_of (verifier_of self.new) ≡ list_of (verifier_of self.old) }
        ensures verified { (before : List ℕ) → HasVerified before (verifier_of self.old)
            → AnswersVerified before bytes.now (verifier_of self.old)
            (verifier_of self.new) result }
        ensures within { IfOk result (λ fed. fed.used ≤ length bytes.now) }
        ensures on { (after : List ℕ) × HasVerified after (verifier_of self.new) }
    {
        if let Some(finding) = self.verifier.finding() {
            return Err(FeedFault::Found(finding));
        }
        if self.verifier.frames() == u32::MAX {
            return Err(FeedFault::TooManyFrames);
        }
        match self.verifier.feed(bytes) {
            Ok(fed) => Ok(fed),
            Err(refusal) => Err(FeedFault::Refused(refusal)),
        }
    }

    /// The finding, if something was found.
    pub fn finding(&self) -> Option<Finding>
        ensures { result ≡ finding_in self.now }
    {
        self.verifier.finding()
    }

    /// The number of whole frames.
    pub fn frames(&self) -> u32
        ensures { result ≡ verified_frames (verifier_of self.now) }
    {
        self.verifier.frames()
    }

    /// The status of the words that were fed, if they end here: Differs with the first finding, where there is one; else Malformed with the
    /// first offending word, or where they may not end; else Short, where there are fewer frames than the list has; else Ok.
    pub fn verdict(&self) -> Status
        ensures { (bytes : List ℕ) → HasVerified bytes (verifier_of self.now)
            → IsVerdictOn bytes (verifier_of self.now) result }
    {
        match self.verifier.verdict() {
            Ok(Verdict::Ok) => Status::Ok,
            Ok(Verdict::Differs(finding)) => Status::Differs(finding),
            Ok(Verdict::Short(frames)) => Status::Short(frames),
            Err(refusal) => Status::Malformed(Place::Byte(refusal.place), refusal.why),
        }
    }
}
