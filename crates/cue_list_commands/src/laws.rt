//! Laws of the verdict on a cue list: functions that do nothing, with the laws as their contracts.
ghost use Rattle.cue_list_commands.specs.Judged.{AcceptanceIsOne, AcceptedIsNotRefused, EveryListIsJudged, RefusalIsOne};
ghost use Rattle.cue_list_commands.specs.Migration.{WrittenIsBuiltAlike};

/// The law that a cue list which is accepted is refused with no status.
pub fn accepted_is_not_refused()
    ensures { AcceptedIsNotRefused }
{}

/// The law that bytes which are accepted are accepted as one cue list, with one placement of its units.
pub fn acceptance_is_one()
    ensures { AcceptanceIsOne }
{}

/// The law that a cue list which is refused is refused with one status alone.
pub fn refusal_is_one()
    ensures { RefusalIsOne }
{}

/// The law that every cue list is accepted or refused, whatever its bytes.
pub fn every_list_is_judged()
    ensures { EveryListIsJudged }
{}

/// The law that a cue list which is accepted is accepted again as `cues` writes it, in version 2, with the same placement, and
/// that `pairs` and `build` put the same of both.
pub fn what_is_written_is_built_alike()
    ensures { WrittenIsBuiltAlike }
{}
