//! Laws of such lanes: functions that do nothing, with the laws as their contracts.
ghost use Rattle.dual_fields.specs.Agreeing.{AgreeingAreOne};
ghost use Rattle.dual_fields.specs.Placing.{FirstFitIsEarliest, LanesAreOne};
ghost use Rattle.dual_fields.specs.Spans.{SpansAreCovered};

/// A lane has the same placements as one that says nothing of the unit before, since each cue's first unit is doubled.
pub fn lanes_are_one()
    ensures { LanesAreOne }
{}

/// First fit is the earliest placement, and there is no other.
pub fn first_fit_is_earliest()
    ensures { FirstFitIsEarliest }
{}

/// Slots that agree up to where units must have ended are one for these.
pub fn agreeing_are_one()
    ensures { AgreeingAreOne }
{}

/// The spans of cues are covered step by step.
pub fn spans_are_covered()
    ensures { SpansAreCovered }
{}
