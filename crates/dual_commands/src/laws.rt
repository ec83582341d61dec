//! Laws of the verdict on two lists: functions that do nothing, with the laws as their contracts.
ghost use Rattle.dual_commands.specs.Judged.{AcceptedIsNotRefused, EveryFirstListIsJudged, RefusalIsOne};

/// The law that lists which are accepted together are refused with no status.
pub fn accepted_is_not_refused()
    ensures { AcceptedIsNotRefused }
{}

/// The law that a first list which is refused beside a second one is refused with one status alone.
pub fn refusal_is_one()
    ensures { RefusalIsOne }
{}

/// The law that beside a second list which keeps the rules every input is accepted or refused, whatever its bytes.
pub fn every_first_list_is_judged()
    ensures { EveryFirstListIsJudged }
{}
