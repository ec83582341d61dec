ghost use Rattle.std.specs.Prelude.{◌≡◌};
ghost use Rattle.std.specs.Option.{option_copied};
ghost use Rattle.cue_lists.specs.Rules.Alternatives.{first_broken};
ghost use Rattle.cue_lists.specs.Rules.Unhidden.{unhidden, loads_before_it_hides, leaves_unhidden};

use crate::rules::against::Against;
use cue_types::Cue;
use cue_types::lane::{is_paint, is_roll};
use cue_types::line21::continues;

/// Whom a cue breaks the rule Unhidden against: it loads into what the former cue still shows.
pub fn breaks_unhidden(cue: &Cue, former: Option<&Cue>) -> Option<Against>
    ensures { result ≡ first_broken (unhidden cue.now (option_copied former.entry)) }
{
    let former = former?;
    if loads_before_it_hides(cue, former) || leaves_unhidden(cue, former) {
        return Some(Against::Former);
    }
    None
}

/// The cue is paint-on, or roll-up without continuing, and its LOAD is below the former cue's HIDE.
fn loads_before_it_hides(cue: &Cue, former: &Cue) -> bool
    ensures { result ≡ loads_before_it_hides cue.now former.now }
{
    (is_paint(cue.kind) || (is_roll(cue.kind) && !continues(cue, former)))
        && matches!(former.hide, Some(hide) if cue.load < hide)
}

/// The former cue's HIDE is empty, and the cue doesn't continue it.
fn leaves_unhidden(cue: &Cue, former: &Cue) -> bool
    ensures { result ≡ leaves_unhidden cue.now former.now }
{
    former.hide.is_none() && !continues(cue, former)
}
