//! Laws of fitting beside a first list: functions that do nothing, with the laws as their contracts.
ghost use Rattle.dual_fit.specs.FitLaws.{FittedStandsBeside, FittingBesideIsOne, LackingIsNotFitted};

/// The law that a fitted list stands beside the first one: both go together, and all of their units have a placement.
pub fn fitted_stands_beside()
    ensures { FittedStandsBeside }
{}

/// The law that a list is fitted in one way.
pub fn fitting_beside_is_one()
    ensures { FittingBesideIsOne }
{}

/// The law that a list of which a cue has no times isn't fitted.
pub fn lacking_is_not_fitted()
    ensures { LackingIsNotFitted }
{}
