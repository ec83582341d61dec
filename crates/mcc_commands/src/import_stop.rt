use cc_base::{LimitOf, Refusal};
use command_base::{Place, Status};
use words_reading::Reason;

/// Why an import stops within its input.
#[derive(Clone, Copy, PartialEq, Eq)]
pub enum MccStop {
    /// Something offends.
    Offends(Refusal),
    /// With a packet this limit is passed, Bytes or Frames.
    Passes(LimitOf),
}

impl Reason for MccStop {
    ghost use Rattle.mcc_commands.specs.Stops.{stop_status};

    ghost status_of = { stop_status };

    fn status(self) -> Status {
        match self {
            MccStop::Offends(refusal) => {
                Status::Malformed(Place::Byte(refusal.place), refusal.why)
            }
            MccStop::Passes(which) => Status::Limit(which),
        }
    }
}
