ghost use Rattle.std.specs.Prelude.{◌≡◌, ◌≤◌, IfOk, MatchResult, []};
ghost use Rattle.cue_lists.specs.Listing.{IsFormed};
ghost use Rattle.cue_lists.specs.Rules.{IsRuled};
ghost use Rattle.cue_lists.specs.Printing.{in_order};
ghost use Rattle.cue_fit.specs.Fitted.{list_of, most_late};
ghost use Rattle.dual_plans.specs.OtherList.{AreAlike};
ghost use Rattle.dual_fit.specs.FittedBeside.{StandTogether};
ghost use Rattle.dual_fit.specs.Tries.{FitsBeside, IsMemory};

use crate::fault::FitFault;
use crate::timed::{add_timed, takes_former};
use crate::trying::first_times;
use cue_fit::copies::copies;
use cue_fit::shown::list_with;
use cue_lists::CueList;
use dual_plans::{DualFault, plan_dual};
use std::alloc::{AllocError, Global};

/// Fits a second list beside a first one; both keep the rules. Where both stand together, it stays as it is. Else each of its cues in
/// turn is shown in the first frame, from its SHOW on, and hidden in the first one, from its HIDE on and after that, in which the list
/// of the cues so far keeps the rules and stands beside the first list: each at most this many frames late, 0 to 1,000.
///
/// A line 21 cue loads where the former cue of its channel is shown, if that is later than its LOAD. Where a pop-on cue asks to be shown
/// when the former one asks to be hidden, that one is hidden when it is shown.
///
/// Refused, in this order, where the second list isn't as the first asks (OtherList), where the first has no room by itself
/// (NoRoomBeside, with its cue), and where a cue of the second can't be shown so (NoRoom). Memory may run out before any of these.
pub fn fit_beside(
    alloc: Global,
    first: &CueList,
    second: &CueList,
    late: u32,
) -> Result<CueList, FitFault>
    requires first { IsRuled first.now }
    requires second { IsRuled second.now }
    requires late { late ≤ most_late }
    ensures { FitsBeside late first.now second.now result }
{
    match plan_dual(alloc, first, second) {
        Ok(_) => as_it_is(alloc, second),
        Err(fault) => match fault {
            DualFault::Memory(error) => Err(FitFault::Memory(error)),
            DualFault::OtherList { rec, field } => Err(FitFault::OtherList { rec, field }),
            _ => fit_moved(alloc, first, second, late),
        },
    }
}

/// A list as it is, its shares in the order in which they are written.
fn as_it_is(alloc: Global, list: &CueList) -> Result<CueList, FitFault>
    ensures { MatchResult result (λ same. same ≡ in_order list.now) IsMemory }
{
    match copied(alloc, list) {
        Ok(list) => Ok(list),
        Err(error) => Err(FitFault::Memory(error)),
    }
}

/// A copy of a list, its shares in the order in which they are written.
fn copied(alloc: Global, list: &CueList) -> Result<CueList, AllocError>
    ensures { IfOk result (λ same. same ≡ in_order list.now) }
{
    let cues = copies(alloc, list.cues())?;
    list_with(alloc, list, cues)
}

/// A second list fitted that doesn't stand beside the first as it is.
fn fit_moved(
    alloc: Global,
    first: &CueList,
    second: &CueList,
    late: u32,
) -> Result<CueList, FitFault>
    requires first { IsRuled first.now }
    requires second { IsRuled second.now }
    requires alike { AreAlike first.now second.now }
    requires apart { StandTogether first.now second.now → ⊥ }
    requires late { late ≤ most_late }
    ensures { FitsBeside late first.now second.now result }
{
    let empty = match without_cues(alloc, second) {
        Ok(empty) => empty,
        Err(error) => return Err(FitFault::Memory(error)),
    };
    match plan_dual(alloc, first, &empty) {
        Ok(_) => fit_each(alloc, first, second, late),
        Err(DualFault::Memory(error)) => Err(FitFault::Memory(error)),
        Err(DualFault::NoRoom(cue)) => Err(FitFault::NoRoomBeside(cue)),
        // no list without cues has a share, clashes or lacks room
        Err(DualFault::OtherList { rec, field }) => Err(FitFault::OtherList { rec, field }),
        Err(DualFault::FieldClash { first, .. }) => Err(FitFault::NoRoomBeside(first)),
        Err(DualFault::NoRoomBeside(cue)) => Err(FitFault::NoRoom(cue)),
    }
}

/// A list with none of its cues.
fn without_cues(alloc: Global, list: &CueList) -> Result<CueList, AllocError>
    ensures empty { IfOk result (λ empty. empty ≡ list_of list.now []) }
    ensures formed { IsFormed list.now }
{
    let none = copies(alloc, &list.cues()[..0])?;
    list_with(alloc, list, none)
}

/// Fits each cue of a second list in turn.
fn fit_each(
    alloc: Global,
    first: &CueList,
    second: &CueList,
    late: u32,
) -> Result<CueList, FitFault>
    requires first { IsRuled first.now }
    requires second { IsRuled second.now }
    requires apart { StandTogether first.now second.now → ⊥ }
    requires alone { StandTogether first.now (list_of second.now []) }
    requires late { late ≤ most_late }
    ensures { FitsBeside late first.now second.now result }
{
    let cues = second.cues();
    let mut fitted = Vec::new(alloc);
    for (index, cue) in cues.iter().enumerate() {
        let takes = takes_former(&cues[..index], cue);
        let times = match first_times(alloc, first, second, takes, &fitted, cue, late) {
            Ok(Some(times)) => times,
            Ok(None) => return Err(FitFault::NoRoom(index as u32 + 1)),
            Err(error) => return Err(FitFault::Memory(error)),
        };
        if let Err(error) = add_timed(alloc, &mut fitted, takes, cue, times) {
            return Err(FitFault::Memory(error));
        }
    }
    match list_with(alloc, second, fitted) {
        Ok(list) => Ok(list),
        Err(error) => Err(FitFault::Memory(error)),
    }
}
