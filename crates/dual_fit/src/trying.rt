ghost use Rattle.std.specs.Prelude.{◌≡◌, ◌≤◌, ℕ, IfOk, None, reverse};
ghost use Rattle.cue_lists.specs.Cues.{IsCueFormed};
ghost use Rattle.cue_lists.specs.Rules.{IsRuled};
ghost use Rattle.cue_fit.specs.Fitted.{list_of, most_late};
ghost use Rattle.dual_fit.specs.Timed.{with_timed};
ghost use Rattle.dual_fit.specs.Tries.{ComesBeside, FindsHide, FindsTimes, TellsTogether};

use crate::timed::list_with_timed;
use crate::times::Times;
use cue_lists::{Cue, CueList, check};
use dual_plans::{DualFault, plan_dual};
use std::alloc::{AllocError, Global};

/// The first SHOW of a cue, from that which it asks on, with which some HIDE does after the cues so far and beside the first list, and
/// the least such HIDE. None where no SHOW at most this many frames later does.
pub fn first_times(
    alloc: Global,
    first: &CueList,
    second: &CueList,
    takes: bool,
    earlier: &[Cue],
    cue: &Cue,
    late: u32,
) -> Result<Option<Times>, AllocError>
    requires next { ComesBeside first.now second.now earlier.now cue.now }
    requires late { late ≤ most_late }
    ensures { IfOk result
        (FindsTimes late first.now second.now takes (reverse earlier.now) cue.now) }
{
    for show in cue.show..cue.show + late + 1 {
        let found = least_hide(alloc, first, second, takes, earlier, cue, show, late)?;
        if let Some(times) = found {
            return Ok(Some(times));
        }
    }
    Ok(None)
}

/// The times of a cue with this SHOW and the least HIDE that does with it, if one does.
fn least_hide(
    alloc: Global,
    first: &CueList,
    second: &CueList,
    takes: bool,
    earlier: &[Cue],
    cue: &Cue,
    show: u32,
    late: u32,
) -> Result<Option<Times>, AllocError>
    requires next { ComesBeside first.now second.now earlier.now cue.now }
    requires late { late ≤ most_late }
    ensures { IfOk result
        (FindsHide late first.now second.now takes (reverse earlier.now) cue.now show) }
{
    let Some(asked) = cue.hide else {
        return unhidden(alloc, first, second, takes, earlier, cue, show);
    };
    for hide in asked..asked + late + 1 {
        let times = Times {
            show,
            hide: Some(hide),
        };
        if show < hide && stands(alloc, first, second, takes, earlier, cue, times)? {
            return Ok(Some(times));
        }
    }
    Ok(None)
}

/// The times of a cue that is never hidden with this SHOW, if that does.
fn unhidden(
    alloc: Global,
    first: &CueList,
    second: &CueList,
    takes: bool,
    earlier: &[Cue],
    cue: &Cue,
    show: u32,
) -> Result<Option<Times>, AllocError>
    requires next { ComesBeside first.now second.now earlier.now cue.now }
    requires open { cue.now.hide ≡ None }
    ensures { (late : ℕ) → IfOk result
        (FindsHide late first.now second.now takes (reverse earlier.now) cue.now show) }
{
    let times = Times { show, hide: None };
    if stands(alloc, first, second, takes, earlier, cue, times)? {
        Ok(Some(times))
    } else {
        Ok(None)
    }
}

/// Whether both lists stand together with the cues so far and a cue at these times in the second list.
fn stands(
    alloc: Global,
    first: &CueList,
    second: &CueList,
    takes: bool,
    earlier: &[Cue],
    cue: &Cue,
    times: Times,
) -> Result<bool, AllocError>
    requires next { ComesBeside first.now second.now earlier.now cue.now }
    requires timed { IsCueFormed (record cue.now { show = times.show; hide = times.hide }) }
    ensures { IfOk result (TellsTogether first.now
        (list_of second.now (with_timed takes times cue.now (reverse earlier.now)))) }
{
    let longer = list_with_timed(alloc, second, takes, earlier, cue, times)?;
    stand_together(alloc, first, &longer)
}

/// Whether a second list keeps the rules and stands beside a first one that does.
fn stand_together(alloc: Global, first: &CueList, second: &CueList) -> Result<bool, AllocError>
    requires { IsRuled first.now }
    ensures { IfOk result (TellsTogether first.now second.now) }
{
    if let Err(_) = check(second) {
        return Ok(false);
    }
    match plan_dual(alloc, first, second) {
        Ok(_) => Ok(true),
        Err(fault) => match fault {
            DualFault::Memory(error) => Err(error),
            _ => Ok(false),
        },
    }
}
