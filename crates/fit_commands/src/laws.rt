//! Laws of what `fit` answers: functions that do nothing, with the laws as their contracts.
ghost use Rattle.fit_commands.specs.FitBesideLaws.{FittedGoesBeside};
ghost use Rattle.fit_commands.specs.FitLaws.{AcceptedIsFitted, EveryListIsFitted, FitRefusalIsOne, FittedIsAccepted, FittedIsNotRefused, FittingIsOne};

/// The law that what is written of a fitted list is accepted, where it keeps to the limit of a list's bytes.
pub fn fitted_is_accepted()
    ensures { FittedIsAccepted }
{}

/// The law that bytes are fitted as one list.
pub fn fitting_is_one()
    ensures { FittingIsOne }
{}

/// The law that a list which is fitted is refused with no status.
pub fn fitted_is_not_refused()
    ensures { FittedIsNotRefused }
{}

/// The law that a list which is refused is refused with one status.
pub fn fit_refusal_is_one()
    ensures { FitRefusalIsOne }
{}

/// The law that every list is fitted or refused, whatever its bytes.
pub fn every_list_is_fitted()
    ensures { EveryListIsFitted }
{}

/// The law that a list which is accepted is fitted as it is: the output is what `cues` puts.
pub fn accepted_is_fitted()
    ensures { AcceptedIsFitted }
{}

/// The law that what is written of a list which is fitted beside a first one goes beside it: `dual` takes both.
pub fn fitted_goes_beside()
    ensures { FittedGoesBeside }
{}
