//! Laws of shared fields: functions that do nothing, with the laws as their contracts.
ghost use Rattle.dual_plans.specs.Joined.{LanesAreJoined};
ghost use Rattle.dual_plans.specs.Others.{LanesPutOtherPairs};
ghost use Rattle.dual_plans.specs.PlacedUnits.{UnitsAreOfOneLane};
ghost use Rattle.dual_plans.specs.Placeable.{ChannelsAreReady, SecondEventsBegin};

/// The frames of two lanes carry the timeline of their field.
pub fn lanes_are_joined()
    ensures { LanesAreJoined }
{}

/// Second lanes put other pairs into frames, and leave their service blocks.
pub fn lanes_put_other_pairs()
    ensures { LanesPutOtherPairs }
{}

/// The units of a channel's cues that keep the rules can be placed, and their codes and their events' written, on both
/// channels of the field.
pub fn channels_are_ready()
    ensures { ChannelsAreReady }
{}

/// The events with the codes for data channel 2 begin where theirs do.
pub fn second_events_begin()
    ensures { SecondEventsBegin }
{}

/// The units in their places are units of one lane of the longer list of units.
pub fn units_are_of_one_lane()
    ensures { UnitsAreOfOneLane }
{}
