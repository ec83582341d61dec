ghost use Rattle.std.specs.Prelude.{◌≡◌, ℕ, IsSome, true, false, None};
ghost use Rattle.cue_lists.specs.Listing.{share_of};
ghost use Rattle.cue_lists.specs.Rules.{IsRuled};
ghost use Rattle.dual_plans.specs.OtherList.{IsJudged};

use cue_lists::{CueList, LAST_SERVICE};

/// A field of a second list that isn't as the first list asks, by the numbers of its record and of the field in that, from 1.
#[derive(Clone, Copy, PartialEq, Eq)]
pub struct OtherField {
    pub rec: u32,
    pub field: u32,
}

/// The first field of a second list that isn't as the first list asks: its rate, its number of frames, or its first share. None
/// exactly where both have one rate and as many frames, and the second list has no share.
pub fn other_field(first: &CueList, second: &CueList) -> Option<OtherField>
    requires { IsRuled second.now }
    ensures { IsJudged first.now second.now result }
{
    if second.rate() != first.rate() {
        Some(OtherField { rec: 1, field: 3 })
    } else if second.frames() != first.frames() {
        Some(OtherField { rec: 1, field: 4 })
    } else if has_share(second) {
        Some(OtherField { rec: 2, field: 1 })
    } else {
        None
    }
}

// Whether a list has a share of any service.
fn has_share(list: &CueList) -> bool
    requires { IsRuled list.now }
    ensures some { result ≡ true → (service : ℕ) × IsSome (share_of list.now service) }
    ensures none { result ≡ false → (service : ℕ) → share_of list.now service ≡ None }
{
    let _cues = list.cues();
    for service in 1..=LAST_SERVICE {
        match list.share(service) {
            Some(_) => return true,
            None => {}
        }
    }
    false
}
