ghost use Rattle.cue_types.specs.Listing.{most_cues};
ghost use Rattle.std.specs.Prelude.{◌≡◌, ◌+◌, ◌≤◌, All, length, reverse, MatchResult, IsOk, IsErrOf};
ghost use Rattle.cue_lists.specs.Rules.{IsRuled, HasFault};
ghost use Rattle.cue_lists.specs.Rules.Tests.{AreFaultless, AnswersFault, fault_of, first_fault, other_of};
ghost use Rattle.cue_types.specs.Cues.{IsCueFormed};
ghost use Rattle.cue_lists.specs.Rules.Formers.{Remembers};
ghost use Rattle.cue_lists.specs.declared.rules.RuleFault.{RuleFault};

use crate::rules::against::Against;
use crate::rules::clash::breaks_clash;
use crate::rules::formers::{Formers, cue_of};
use crate::rules::off_slot::breaks_off_slot;
use crate::rules::order::breaks_order;
use crate::rules::overlap::breaks_overlap;
use crate::rules::past_end::breaks_past_end;
use crate::rules::unhidden::breaks_unhidden;
use crate::rules::windows::{breaks_delay_covers, breaks_share, breaks_window_busy};
use cc_base::Why;
use cue_types::{Cue, CueList};
use line21_slots::slot_step;

pub mod against;
mod cells;
pub mod clash;
mod examples;
pub mod formers;
pub mod off_slot;
pub mod order;
pub mod overlap;
pub mod past_end;
pub mod unhidden;
pub mod windows;

/// The fault of the first cue of a list that breaks a rule, by the lowest rule that it breaks.
#[derive(Clone, Copy, PartialEq, Eq)]
pub struct RuleFault {
    /// The rule.
    pub why: Why,
    /// The cue, counted from 1 in the order of the list.
    pub cue: u32,
    /// The earlier cue with which the rule is broken; None where the cue alone breaks it.
    pub other: Option<u32>,
}

/// Judges the cues of a list in order, each against itself and the cues before it.
///
/// Ok where each cue keeps the rules; else the fault of the first cue that breaks one.
/// It takes no memory, and time in proportion to the cues and their runs. Of the cues before one, it looks at the former cue
/// and at the last one in each window of its service.
pub fn check(list: &CueList) -> Result<(), RuleFault>
    ensures judged { MatchResult result (λ _. IsRuled list.now) (λ fault. HasFault list.now fault) }
    ensures ruled { IsRuled list.now → IsOk result }
    ensures first { (fault : RuleFault) → HasFault list.now fault → IsErrOf result fault }
{
    let cues = list.cues();
    let mut formers = Formers::new();
    for (index, cue) in cues.iter().enumerate() {
        judge(list, &cues[..index], &formers, cue)?;
        formers.pass(cue, index as u32 + 1);
    }
    Ok(())
}

/// Judges a cue by the rules in their order, with the cues before it, which keep them.
fn judge(list: &CueList, earlier: &[Cue], formers: &Formers, cue: &Cue) -> Result<(), RuleFault>
    requires few { length earlier.now ≤ most_cues }
    requires formed { IsCueFormed cue.now }
    requires earlier { All IsCueFormed earlier.now }
    requires formers { Remembers formers.now (reverse earlier.now) }
    requires kept { AreFaultless list.now (reverse earlier.now) }
    ensures { AnswersFault result (fault_of list.now (reverse earlier.now) cue.now) }
{
    let number = formers.number(cue);
    let former = cue_of(earlier, number);
    let rate = list.rate();
    let step = slot_step(rate);
    let place = earlier.len() as u32 + 1;
    if let Some(against) = breaks_order(rate, cue, former) {
        return Err(fault(Why::Order, place, against, number));
    }
    let verdicts = [
        (Why::Overlap, breaks_overlap(cue, former)),
        (Why::Clash, breaks_clash(step, cue, former)),
        (Why::Unhidden, breaks_unhidden(cue, former)),
        (Why::WindowBusy, breaks_window_busy(cue, earlier, formers)),
        (
            Why::DelayCovers,
            breaks_delay_covers(rate, cue, earlier, formers),
        ),
        (Why::Share, breaks_share(list, cue)),
        (Why::PastEnd, breaks_past_end(step, list.frames(), cue)),
        (Why::OffSlot, breaks_off_slot(rate, cue)),
    ];
    first_fault(&verdicts, place, number)
}

/// The fault of the first broken rule, of a cue with this number and its former cue's. A verdict is a rule, and whom the
/// cue breaks it against, if it does.
pub fn first_fault(
    verdicts: &[(Why, Option<Against>)],
    cue: u32,
    former: Option<u32>,
) -> Result<(), RuleFault>
    ensures { AnswersFault result (first_fault cue former verdicts.now) }
{
    for (why, against) in verdicts {
        if let Some(against) = *against {
            return Err(fault(*why, cue, against, former));
        }
    }
    Ok(())
}

/// The fault of a rule that a cue breaks, with this number and its former cue's.
fn fault(why: Why, cue: u32, against: Against, former: Option<u32>) -> RuleFault
    ensures { result ≡ record { why = why; cue = cue; other = other_of against former } }
{
    let other = match against {
        Against::Itself => None,
        Against::Former => former,
        Against::Earlier(number) => Some(number),
    };
    RuleFault { why, cue, other }
}
