ghost use Rattle.std.specs.Prelude.{◌≡◌, ◌<◌};
ghost use Rattle.cue_form.specs.RecordJudgements.{count_place};

use cc_base::{LimitOf, Why};
use std::alloc::AllocError;

/// Why a record can't be taken.
#[derive(Clone, Copy)]
pub enum Offence {
    /// Memory ran out.
    Memory(AllocError),
    /// The file passes a limit with this record.
    Limit(LimitOf),
    /// The field of this number, counted from 1, offends.
    At { field: u32, why: Why },
}

/// The offence of a field that is out of its form or range.
pub fn out_of_form(field: u32) -> Offence
    ensures { result ≡ Offence.At field Why.Field }
{
    Offence::At {
        field,
        why: Why::Field,
    }
}

/// The field at which a record of another number of fields than `count` offends.
pub fn count_place(count: u32, given: usize) -> u32
    requires { count < 100 }
    ensures { result ≡ count_place count given }
{
    if given < count as usize {
        given as u32 + 1
    } else {
        count + 1
    }
}
