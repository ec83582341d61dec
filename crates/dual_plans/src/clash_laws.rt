//! Laws of clashes: functions that do nothing, with the laws as their contracts.
ghost use Rattle.dual_plans.specs.Clashes.{ALeastClashIsThereOrNone, NoSlotIsSharedUnlessCuesClash};
ghost use Rattle.dual_plans.specs.CueEvents.{EventsAreThoseOfTheChannel};

/// The events with the numbers of their cues begin where the channel's events do, one for one.
pub fn events_are_those_of_the_channel()
    ensures { EventsAreThoseOfTheChannel }
{}

/// Of any two lists there is a least clash, or none.
pub fn a_least_clash_is_there_or_none()
    ensures { ALeastClashIsThereOrNone }
{}

/// Where no cues clash, no slot of a field is held by events of both lists.
pub fn no_slot_is_shared_unless_cues_clash()
    ensures { NoSlotIsSharedUnlessCuesClash }
{}
