//! Laws of the definitions: functions without a body, whose contract is the law.

ghost use Rattle.rate_convert.specs.Laws.{FitHasNone, FitKeepsGrids, MisfitIsOne, UndelayedAreFit};

/// A frame that is fit has no misfit.
pub fn law_of_fit_frames()
    ensures { FitHasNone }
{}

/// A frame has one misfit at most.
pub fn law_of_one_misfit()
    ensures { MisfitIsOne }
{}

/// Where no frame has a misfit, what is seen at the output's frame 2 f + 1 is what is seen at the frame f: all channels and services.
pub fn conversion_keeps_grids()
    ensures { FitKeepsGrids }
{}

/// Where no service gets a delay, no frame that can be converted has a misfit: `Changed` never comes.
pub fn nothing_changes_without_delays()
    ensures { UndelayedAreFit }
{}
