ghost use Rattle.std.specs.Prelude.{◌≡◌, ◌≤◌, ℕ, All, MatchResult, length, reverse};
ghost use Rattle.cue_lists.specs.Cues.{IsCueFormed};
ghost use Rattle.cue_lists.specs.Listing.{IsFormed, most_cues, most_frames};
ghost use Rattle.cue_lists.specs.Printing.{in_order};
ghost use Rattle.frame_scheduler.specs.ServicePlans.{IsMemory};
ghost use Rattle.cue_lists.specs.Rules.{IsRuled};
ghost use Rattle.cue_fit.specs.Fitted.{HasPlan, list_of, most_late};
ghost use Rattle.cue_fit.specs.Shown.{with_shown};
ghost use Rattle.cue_fit.specs.Tries.{ComesNext, FindsShow, FitsList, TellsPlan};

use crate::copies::copies;
use crate::former::near_cues;
use crate::shown::{add_shown, list_with, list_with_shown};
use cue_lists::{Cue, CueList, check};
use frame_scheduler::{PlanFault, plan};
use std::alloc::Global;

/// The most frames that a cue may be shown late.
pub const MOST_LATE: u32 = 1_000;

/// Fits a list that keeps the rules. Each cue in turn is shown in the first frame, from its SHOW on, in which the list of the cues so
/// far keeps the rules and has a placement. NoRoom names the first cue for which none of this many frames after its SHOW, 0 to 1,000,
/// is such a one.
///
/// A line 21 cue loads where the former cue of its channel is shown, if that is later than its LOAD. Where a pop-on cue takes
/// the place of the former one, the HIDE of that one goes with its SHOW. All else stays. A list that has a plan stays as it is.
pub fn fit(alloc: Global, list: &CueList, late: u32) -> Result<CueList, PlanFault>
    requires ruled { IsRuled list.now }
    requires late { late ≤ most_late }
    ensures { FitsList late list.now result }
{
    if has_plan(alloc, list)? {
        as_it_is(alloc, list)
    } else {
        fit_each(alloc, list, late)
    }
}

/// A list that has a plan, as it is, its shares in the order in which they are written.
fn as_it_is(alloc: Global, list: &CueList) -> Result<CueList, PlanFault>
    requires { HasPlan list.now }
    ensures { (late : ℕ) → FitsList late list.now result }
{
    match copies(alloc, list.cues()) {
        Ok(cues) => with_cues(alloc, list, cues),
        Err(error) => Err(PlanFault::Memory(error)),
    }
}

/// Shows each cue of a list in turn in the first frame in which it may be shown.
fn fit_each(alloc: Global, list: &CueList, late: u32) -> Result<CueList, PlanFault>
    requires ruled { IsRuled list.now }
    requires late { late ≤ most_late }
    ensures { FitsList late list.now result }
{
    let cues = list.cues();
    let mut fitted = Vec::new(alloc);
    for (index, cue) in cues.iter().enumerate() {
        let Some(show) = first_show(alloc, list, &fitted, cue, late)? else {
            return Err(PlanFault::NoRoom(index as u32 + 1));
        };
        if let Err(error) = add_shown(alloc, &mut fitted, cue, show) {
            return Err(PlanFault::Memory(error));
        }
    }
    with_cues(alloc, list, fitted)
}

/// The list with these cues in place of its own.
fn with_cues(alloc: Global, list: &CueList, cues: Vec<Cue>) -> Result<CueList, PlanFault>
    requires list { IsFormed list.now }
    requires formed { All IsCueFormed cues.items }
    requires few { length cues.items ≤ most_cues }
    ensures { MatchResult result
        (λ other. other ≡ record (in_order list.now) { cues = cues.items }) IsMemory }
{
    match list_with(alloc, list, cues) {
        Ok(list) => Ok(list),
        Err(error) => Err(PlanFault::Memory(error)),
    }
}

/// The first frame, from its SHOW on, in which a cue may be shown after those so far; None where that is more than this many frames late.
fn first_show(
    alloc: Global,
    list: &CueList,
    earlier: &[Cue],
    cue: &Cue,
    late: u32,
) -> Result<Option<u32>, PlanFault>
    requires next { ComesNext list.now earlier.now cue.now }
    requires early { cue.now.show ≤ most_frames }
    requires late { late ≤ most_late }
    ensures { FindsShow late list.now (reverse earlier.now) cue.now result }
{
    for show in cue.show..cue.show + late + 1 {
        if may_show(alloc, list, earlier, cue, show)? {
            return Ok(Some(show));
        }
    }
    Ok(None)
}

/// Whether a cue may be shown in a frame after those so far, whose list has a plan: the list of all of them keeps the rules and has a
/// placement. On a channel the former cue alone decides it.
fn may_show(
    alloc: Global,
    list: &CueList,
    earlier: &[Cue],
    cue: &Cue,
    show: u32,
) -> Result<bool, PlanFault>
    requires { ComesNext list.now earlier.now cue.now }
    ensures { TellsPlan
        (list_of list.now (with_shown show cue.now (reverse earlier.now))) result }
{
    match list_with_shown(alloc, list, near_cues(earlier, cue), cue, show) {
        Ok(longer) => has_plan(alloc, &longer),
        Err(error) => Err(PlanFault::Memory(error)),
    }
}

/// Whether a list keeps the rules and has a placement.
fn has_plan(alloc: Global, list: &CueList) -> Result<bool, PlanFault>
    ensures { TellsPlan list.now result }
{
    if let Err(_) = check(list) {
        return Ok(false);
    }
    match plan(alloc, list) {
        Ok(_) => Ok(true),
        Err(PlanFault::NoRoom(_)) => Ok(false),
        Err(PlanFault::Memory(error)) => Err(PlanFault::Memory(error)),
    }
}
