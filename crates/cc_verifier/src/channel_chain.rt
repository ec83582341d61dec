ghost use Rattle.std.specs.Prelude.{◌≡◌, ◌<◌, ◌≤◌, Some, length, slice_get};
ghost use Rattle.cue_types.specs.declared.cue.Cue.{Cue as CueOf};
ghost use Rattle.cue_lists.specs.AuthoredGrid.{chain_of};
ghost use Rattle.cc_verifier.specs.ChannelNewest.{IsLastOn, cue_at, newest};

use cue_types::Cue;
use cue_types::line21::{continues, is_on};
use line21_codes::Chan;

/// The last one on a channel of the first cues of a list, this many.
pub(crate) fn last_on(channel: Chan, cues: &[Cue], count: usize) -> Option<usize>
    requires { count ≤ length cues.now }
    ensures { IsLastOn channel cues.now count result }
{
    let mut at = count;
    while 0 < at {
        at -= 1;
        if is_on(channel, cues[at].kind) {
            return Some(at);
        }
    }
    None
}

/// The cue this many places before the last one in the chain of roll-up cues that ends with the cue of this number.
pub(crate) fn chain_cue(channel: Chan, cues: &[Cue], number: usize, places: u8) -> Option<usize>
    requires { number < length cues.now }
    ensures { (cue : CueOf) → slice_get cues.now number ≡ Some cue
        → slice_get (chain_of cue (newest channel cues.now number)) places
        ≡ cue_at cues.now result }
{
    let mut at = number;
    let mut left = places;
    while 0 < left {
        let former = last_on(channel, cues, at)?;
        if !continues(&cues[at], &cues[former]) {
            return None;
        }
        at = former;
        left -= 1;
    }
    Some(at)
}
