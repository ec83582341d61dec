ghost use Rattle.std.specs.Prelude.{◌≡◌, All};
ghost use Rattle.std.specs.Option.{option_copied};
ghost use Rattle.cue_lists.specs.Rules.Alternatives.{first_broken};
ghost use Rattle.cue_types.specs.Cells.{IsOnGrid};
ghost use Rattle.cue_lists.specs.Rules.Overlap.{overlap, shows_before_it_hides};

use crate::rules::against::Against;
use crate::rules::cells::have_shared_cell;
use cue_types::Cue;
use cue_types::lane::is_line21;

/// Whom a cue breaks the rule Overlap against: its runs share a cell, or it shows before the former cue hides.
pub fn breaks_overlap(cue: &Cue, former: Option<&Cue>) -> Option<Against>
    requires { All IsOnGrid cue.now.runs }
    ensures { result ≡ first_broken (overlap cue.now (option_copied former.entry)) }
{
    if have_shared_cell(cue.runs.as_slice()) {
        return Some(Against::Itself);
    }
    let former = former?;
    if shows_before_it_hides(cue, former) {
        return Some(Against::Former);
    }
    None
}

/// On a channel, SHOW is below the former cue's HIDE.
fn shows_before_it_hides(cue: &Cue, former: &Cue) -> bool
    ensures { result ≡ shows_before_it_hides cue.now former.now }
{
    is_line21(cue.kind) && matches!(former.hide, Some(hide) if cue.show < hide)
}
