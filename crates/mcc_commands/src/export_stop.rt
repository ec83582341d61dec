use cc_base::LimitOf;
use command_base::Status;
use findings::Finding;
use words_reading::Reason;

/// Why an export stops at a packet.
#[derive(Clone, Copy, PartialEq, Eq)]
pub enum MccStop {
    /// This was found at it.
    Found(Finding),
    /// The day has no frame for it.
    Day,
}

impl Reason for MccStop {
    ghost use Rattle.mcc_commands.specs.ExportSteps.{stop_status};

    ghost status_of = { stop_status };

    fn status(self) -> Status {
        match self {
            MccStop::Found(finding) => Status::Differs(finding),
            MccStop::Day => Status::Limit(LimitOf::Day),
        }
    }
}
