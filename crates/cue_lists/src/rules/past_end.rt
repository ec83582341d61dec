ghost use Rattle.std.specs.Prelude.{◌≡◌, ◌<◌};
ghost use Rattle.cue_lists.specs.Rules.Alternatives.{first_broken};
ghost use Rattle.cue_lists.specs.Rules.PastEnd.{past_end, hides_past_end, shows_past_end, window_past_end};

use crate::rules::against::Against;
use cue_types::Cue;
use cue_types::lane::{is_line21, is_win};

/// Whether a cue breaks the rule PastEnd: it ends past the last frame, the repeat of its last event counted.
pub fn breaks_past_end(step: u32, frames: u32, cue: &Cue) -> Option<Against>
    requires { step < 3 }
    ensures { result ≡ first_broken (past_end step frames cue.now) }
{
    if hides_past_end(step, frames, cue)
        || shows_past_end(frames, cue)
        || window_past_end(frames, cue)
    {
        return Some(Against::Itself);
    }
    None
}

/// On a channel, HIDE, a step from slot to slot and 1 together are above FRAMES.
fn hides_past_end(step: u32, frames: u32, cue: &Cue) -> bool
    requires { step < 3 }
    ensures { result ≡ hides_past_end step frames cue.now }
{
    is_line21(cue.kind)
        && matches!(cue.hide, Some(hide) if u64::from(frames) < u64::from(hide) + u64::from(step) + 1)
}

/// On a channel, HIDE is empty, and SHOW isn't below FRAMES.
fn shows_past_end(frames: u32, cue: &Cue) -> bool
    ensures { result ≡ shows_past_end frames cue.now }
{
    is_line21(cue.kind) && cue.hide.is_none() && frames <= cue.show
}

/// On a service, HIDE isn't below FRAMES.
fn window_past_end(frames: u32, cue: &Cue) -> bool
    ensures { result ≡ window_past_end frames cue.now }
{
    is_win(cue.kind) && matches!(cue.hide, Some(hide) if frames <= hide)
}
