ghost use Rattle.std.specs.Prelude.{◌≡◌};
ghost use Rattle.command_base.specs.StatusCode.{status_code};

use cc_base::{LimitOf, Why};
use cue_lists::RuleFault;
use findings::{Finding, Misfit};

/// Where an input is malformed.
#[derive(Clone, Copy, PartialEq, Eq)]
pub enum Place {
    /// The number of a byte, counted from 0.
    Byte(u64),
    /// A record and a field of a cue list, both counted from 1.
    Field { rec: u32, field: u32 },
}

/// How a run ended.
#[derive(Clone, Copy, PartialEq, Eq)]
pub enum Status {
    /// The input was read to its end, and the output is whole.
    Ok,
    /// The words are no command.
    Usage,
    /// The input failed.
    ReadFault,
    /// The output failed.
    WriteFault,
    /// Out of memory.
    Memory,
    /// The input passes a limit.
    Limit(LimitOf),
    /// The input is malformed there, for that reason.
    Malformed(Place, Why),
    /// The cue list breaks a rule.
    Rule(RuleFault),
    /// The cue of this number, counted from 1, is the first without a placement.
    NoRoom(u32),
    /// This was found at a frame of the words file.
    Differs(Finding),
    /// The words file has only this many frames.
    Short(u32),
    /// The cue of this number, counted from 1, is the first of the second list without a placement beside the first list.
    NoRoomBeside(u32),
    /// The XDS packet of this number, counted from 1, is the first that doesn't end in a free slot.
    NoXdsRoom(u32),
    /// The frame can't be converted to 59.94.
    Misfit(Misfit),
}

impl Status {
    /// The code with which the process ends.
    pub fn code(self) -> u8
        ensures { result ≡ status_code self }
    {
        match self {
            Status::Ok => 0,
            Status::Usage => 1,
            Status::ReadFault => 2,
            Status::WriteFault => 3,
            Status::Memory => 4,
            Status::Limit(_) => 5,
            Status::Malformed(..) => 6,
            Status::Rule(_) => 7,
            Status::NoRoom(_) => 8,
            Status::Differs(_) => 9,
            Status::Short(_) => 10,
            Status::NoRoomBeside(_) => 11,
            Status::NoXdsRoom(_) => 12,
            Status::Misfit(_) => 13,
        }
    }
}
