//! Laws of the verdict on a cue list and packets, and of what `xds` puts: functions that do nothing, with the laws as their contracts.
ghost use Rattle.xds_commands.specs.Judged.{AcceptedIsNotRefused, EveryListIsJudged, RefusalIsOne};
ghost use Rattle.xds_commands.specs.XdsWords.{NoPacketsAreBuilt};

/// The law that a cue list beside whose captions packets have room is refused with no status.
pub fn accepted_is_not_refused()
    ensures { AcceptedIsNotRefused }
{}

/// The law that a cue list which is refused with packets is refused with one status alone.
pub fn refusal_is_one()
    ensures { RefusalIsOne }
{}

/// The law that with any packets every cue list is accepted or refused, whatever its bytes.
pub fn every_list_is_judged()
    ensures { EveryListIsJudged }
{}

/// The law that without packets it puts of a cue list just what `build` puts.
pub fn no_packets_are_built()
    ensures { NoPacketsAreBuilt }
{}
