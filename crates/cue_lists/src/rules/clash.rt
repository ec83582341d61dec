ghost use Rattle.std.specs.Prelude.{◌≡◌, ◌<◌};
ghost use Rattle.std.specs.Option.{option_copied};
ghost use Rattle.cue_lists.specs.Rules.Alternatives.{first_broken};
ghost use Rattle.cue_lists.specs.Rules.Clash.{clash, hides_at_once, shows_as_it_hides};

use crate::rules::against::Against;
use cue_types::Cue;
use cue_types::lane::is_pop;

/// Whom a cue breaks the rule Clash against: two events of its channel need one slot, where the field's slots are `step`
/// frames apart.
pub fn breaks_clash(step: u32, cue: &Cue, former: Option<&Cue>) -> Option<Against>
    requires { step < 3 }
    ensures { result ≡ first_broken (clash step cue.now (option_copied former.entry)) }
{
    if hides_at_once(step, cue) {
        return Some(Against::Itself);
    }
    let former = former?;
    if shows_as_it_hides(step, cue, former) {
        return Some(Against::Former);
    }
    None
}

/// A pop-on cue's HIDE is below SHOW and two steps.
fn hides_at_once(step: u32, cue: &Cue) -> bool
    requires { step < 3 }
    ensures { result ≡ hides_at_once step cue.now }
{
    is_pop(cue.kind)
        && matches!(cue.hide, Some(hide) if u64::from(hide) < u64::from(cue.show) + 2 * u64::from(step))
}

/// A pop-on cue's SHOW is above the former cue's HIDE, and below that and two steps.
fn shows_as_it_hides(step: u32, cue: &Cue, former: &Cue) -> bool
    requires { step < 3 }
    ensures { result ≡ shows_as_it_hides step cue.now former.now }
{
    is_pop(cue.kind)
        && matches!(former.hide, Some(hide) if hide < cue.show
            && u64::from(cue.show) < u64::from(hide) + 2 * u64::from(step))
}
