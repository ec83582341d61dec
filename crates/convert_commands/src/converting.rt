ghost use Rattle.std.specs.Prelude.{List};
ghost use Rattle.convert_commands.specs.ConvertVerdict.{ConvertHalts};
ghost use Rattle.convert_commands.specs.Converting.{AreConverted, HasMade, IsUnderway, unfit_status};

use cc_base::{Put, Refusal, Sink};
use command_base::Status;
use rate_convert::{Converter, Misfit};
use text_output::Gathered;
use words_reading::{Ended, Judge, Reason, Stop};

/// A frame that has a misfit, the first of all: for it a conversion stops.
#[derive(Clone, Copy, PartialEq, Eq)]
pub struct Unfit {
    /// Which frame, and why.
    pub misfit: Misfit,
}

impl Reason for Unfit {
    ghost status_of = { unfit_status };

    fn status(self) -> Status {
        Status::Misfit(self.misfit)
    }
}

/// Words on their way through a converter, up to the first misfit.
#[derive(Drop)]
pub struct Converting {
    /// After the words so far.
    pub converter: Converter,
}

impl Judge for Converting {
    type Reason = Unfit;

    ghost Given = { Unit {0} };

    ghost HasRead = { λ bytes converting. IsUnderway bytes converting.converter };

    ghost HasJudged = { λ given bytes text converting. HasMade bytes text converting };

    ghost Says = { λ given. AreConverted };

    ghost Halts = { λ given unfit. ConvertHalts (unfit_status unfit) };

    /// Adds the words of both frames that a frame becomes, unless it has a misfit.
    fn step<O: Sink>(
        &mut self,
        bytes: &[u8],
        text: &mut Gathered,
        out: &mut O,
    ) -> Result<usize, Stop<Unfit>> {
        let fed = match self.converter.feed(bytes) {
            Ok(fed) => fed,
            Err(refusal) => return Err(Stop::Refused(refusal)),
        };
        match fed.ended {
            Ended::Caption => {}
            _ => return Ok(fed.used),
        }
        match self.converter.misfit() {
            Some(misfit) => Err(Stop::Own(Unfit { misfit })),
            None => match text.add(&self.converter.words(), out) {
                Put::Done => Ok(fed.used),
                Put::Failed => Err(Stop::WriteFault),
            },
        }
    }

    fn end(&self) -> Result<(), Refusal> {
        self.converter.finish()
    }

    ghost says = { λ given bytes text converting had. (had.says, had.underway.unoffending) };
}
