ghost use Rattle.std.specs.Prelude.{◌≡◌};
ghost use Rattle.cue_form.specs.Reading.{in_record};

use crate::Offence;
use cc_base::{LimitOf, Why};
use std::alloc::AllocError;
use thiserror::Error;

/// Why a cue list can't be read.
#[derive(Debug, Drop, Error)]
pub enum CueFault {
    /// Memory ran out.
    #[error("out of memory")]
    Memory(AllocError),
    /// The list passes a limit: frames or cues.
    #[error("limit {0:?}")]
    Limit(LimitOf),
    /// A record is out of form: its number and its field's number, both from 1, and the reason.
    #[error("malformed at record {rec} field {field}")]
    Malformed { rec: u32, field: u32, why: Why },
}

/// The fault of the record of this number, counted from 1, that offends so.
pub fn in_record(offence: Offence, rec: u32) -> CueFault
    ensures { result ≡ in_record rec offence }
{
    match offence {
        Offence::Memory(error) => CueFault::Memory(error),
        Offence::Limit(which) => CueFault::Limit(which),
        Offence::At { field, why } => CueFault::Malformed { rec, field, why },
    }
}
