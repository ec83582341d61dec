ghost use Rattle.std.specs.Prelude.{◌≡◌};
ghost use Rattle.cue_types.specs.Channels.{is_on};
ghost use Rattle.cue_types.specs.Line21Cues.{base_row, continues};

use crate::cue::{Cue, Kind};
use line21_codes::Chan;

/// Whether a cue of the kind is on a channel; a window cue is on none.
pub fn is_on(channel: Chan, kind: Kind) -> bool
    ensures { result ≡ is_on channel kind }
{
    match kind {
        Kind::Pop(own) | Kind::Paint(own) | Kind::Roll(own, _) => channel == own,
        Kind::Win(_) => false,
    }
}

/// The row of a cue's first run; 0 where it has none.
pub fn base_row(cue: &Cue) -> u8
    ensures { result ≡ base_row cue.now.runs }
{
    match cue.runs.as_slice().first() {
        Some(run) => run.row,
        None => 0,
    }
}

/// A roll-up cue continues the former cue, where that is one without a HIDE, of as many rows and the same base row.
pub fn continues(cue: &Cue, former: &Cue) -> bool
    ensures { result ≡ continues cue.now former.now }
{
    match (cue.kind, former.kind) {
        (Kind::Roll(_, rows), Kind::Roll(_, former_rows)) => {
            rows == former_rows && former.hide.is_none() && base_row(cue) == base_row(former)
        }
        _ => false,
    }
}
