ghost use Rattle.std.specs.Prelude.{◌≡◌};
ghost use Rattle.std.specs.Option.{option_copied};
ghost use Rattle.cc_base.specs.Rate.{delay_frames_of};
ghost use Rattle.cue_lists.specs.Rules.Alternatives.{first_broken};
ghost use Rattle.cue_lists.specs.Rules.Order.{order, hides_early, delay_starts_early, loads_before_it_shows, loads_before_it_loads};
ghost use Rattle.cue_lists.specs.Rules.Delay.{delay_of};

use crate::rules::against::Against;
use cc_base::Rate;
use cue_types::lane::{is_line21, is_win};
use cue_types::{Cue, Kind};

/// Whom a cue breaks the rule Order against: its frames are out of order, or it loads before the former cue allows.
pub fn breaks_order(rate: Rate, cue: &Cue, former: Option<&Cue>) -> Option<Against>
    ensures { result ≡ first_broken (order rate cue.now (option_copied former.entry)) }
{
    if cue.show <= cue.load || hides_early(cue) || delay_starts_early(rate, cue) {
        return Some(Against::Itself);
    }
    let former = former?;
    if loads_before_it_shows(cue, former) || loads_before_it_loads(cue, former) {
        return Some(Against::Former);
    }
    None
}

/// SHOW isn't below HIDE.
fn hides_early(cue: &Cue) -> bool
    ensures { result ≡ hides_early cue.now }
{
    matches!(cue.hide, Some(hide) if hide <= cue.show)
}

/// The DELAY of a kind of cue, in tenths of a second; 0 where it has none.
pub fn delay(kind: Kind) -> u8
    ensures { result ≡ delay_of kind }
{
    match kind {
        Kind::Win(window) => window.delay,
        _ => 0,
    }
}

/// DELAY is above 0, and LOAD and the frames of DELAY together aren't below SHOW.
fn delay_starts_early(rate: Rate, cue: &Cue) -> bool
    ensures { result ≡ delay_starts_early rate cue.now }
{
    let tenths = delay(cue.kind);
    let start = u64::from(cue.load) + u64::from(rate.delay_frames(tenths));
    tenths > 0 && u64::from(cue.show) <= start
}

/// On a channel, LOAD is below the former cue's SHOW.
fn loads_before_it_shows(cue: &Cue, former: &Cue) -> bool
    ensures { result ≡ loads_before_it_shows cue.now former.now }
{
    is_line21(cue.kind) && cue.load < former.show
}

/// On a service, LOAD is below the former cue's LOAD.
fn loads_before_it_loads(cue: &Cue, former: &Cue) -> bool
    ensures { result ≡ loads_before_it_loads cue.now former.now }
{
    is_win(cue.kind) && cue.load < former.load
}
