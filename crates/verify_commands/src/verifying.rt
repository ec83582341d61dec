ghost use Rattle.std.specs.Prelude.{ℕ, List, []};
ghost use Rattle.cc_verifier.specs.Verifiers.{list_of};
ghost use Rattle.cue_types.specs.Listing.{Listing};
ghost use Rattle.verify_commands.specs.VerifyVerdict.{FindsFirst, FindsNothing};
ghost use Rattle.verify_commands.specs.Verifying.{HasJudged, HasJudgedSo, found_status};

use cc_base::{Refusal, Sink};
use cc_verifier::Verifier;
use command_base::Status;
use findings::Finding;
use text_output::Gathered;
use words_reading::{Judge, Reason, Stop};

/// What is found at a frame: for it a verifying stops.
#[derive(Clone, Copy, PartialEq, Eq)]
pub struct Found {
    /// The frame, and what it is.
    pub finding: Finding,
}

impl Reason for Found {
    ghost status_of = { found_status };

    fn status(self) -> Status {
        Status::Differs(self.finding)
    }
}

/// Words on their way through a verifier, up to the first finding. Nothing is put of them.
#[derive(Drop)]
pub struct Verifying {
    /// After the words so far.
    pub verifier: Verifier,
}

impl Judge for Verifying {
    type Reason = Found;

    ghost Given = { Listing };

    ghost HasRead = { λ bytes verifying. HasJudged (list_of verifying.verifier) bytes verifying.verifier };

    ghost HasJudged = { λ list bytes text verifying. HasJudgedSo list bytes text verifying };

    ghost Says = { λ list. FindsNothing list };

    ghost Halts = { λ list found. FindsFirst list found.finding };

    fn step<O: Sink>(
        &mut self,
        bytes: &[u8],
        text: &mut Gathered,
        out: &mut O,
    ) -> Result<usize, Stop<Found>> {
        let fed = match self.verifier.feed(bytes) {
            Ok(fed) => fed,
            Err(refusal) => return Err(Stop::Refused(refusal)),
        };
        match self.verifier.finding() {
            Some(finding) => Err(Stop::Own(Found { finding })),
            None => Ok(fed.used),
        }
    }

    /// Says whether the words may end here, be their frames enough or too few.
    fn end(&self) -> Result<(), Refusal> {
        match self.verifier.verdict() {
            Ok(_) => Ok(()),
            Err(refusal) => Err(refusal),
        }
    }

    ghost says = { λ list bytes text verifying had. (had.says, had.judged.unoffending) };
}
