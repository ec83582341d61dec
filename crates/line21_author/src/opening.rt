ghost use Rattle.std.specs.Prelude.{◌≡◌, ◌++◌, OnOk};
ghost use Rattle.line21_author.specs.CueCodes.{opening_codes};

use crate::channel::first_channel;
use cue_lists::Kind;
use line21_codes::{Code, Control};
use std::alloc::AllocError;

/// Appends the codes that begin a cue: those that set its caption mode.
pub(crate) fn push_opening(codes: &mut Vec<Code>, kind: Kind) -> Result<(), AllocError>
    ensures { OnOk result (codes.new.items ≡ codes.old.items ++ opening_codes kind) }
{
    match kind {
        Kind::Pop(_) => {
            codes.push(first_channel(Control::Rcl))?;
            codes.push(first_channel(Control::Enm))?;
        }
        Kind::Paint(_) => codes.push(first_channel(Control::Rdc))?,
        Kind::Roll(_, rows) => {
            codes.push(first_channel(Control::Ru(rows)))?;
            codes.push(first_channel(Control::Cr))?;
        }
        Kind::Win(_) => {}
    }
    Ok(())
}
