ghost use Rattle.std.specs.Prelude.{IfOk};
ghost use Rattle.cue_lists.specs.Listing.{IsFormed};
ghost use Rattle.cue_lists.specs.Rules.{IsRuled};
ghost use Rattle.dual_plans.specs.ListLanes.{HasUnitsWithin, IsFirstLane, IsSecondLane, IsWritableLane};
ghost use Rattle.frame_carrier.specs.SlotLists.{slots_in_list};

use crate::{channel_parts, second_events, second_parts};
use cue_lists::{Cadence, CueList};
use dual_fields::Part;
use line21_author::{Event, events};
use line21_codes::Chan;
use std::alloc::{AllocError, Global};

/// What a list sends in the field of a channel: the units of its cues and its events, in slots of the field.
#[derive(Drop)]
pub struct ListLane {
    pub parts: Vec<Part>,
    pub events: Vec<Event>,
}

/// What the first list sends in the field of a channel. `AllocError` where there is no memory for it.
pub fn first_lane(alloc: Global, list: &CueList, channel: Chan) -> Result<ListLane, AllocError>
    requires { IsRuled list.now }
    ensures lane { IfOk result (IsFirstLane list.now channel) }
    ensures within { IfOk result (HasUnitsWithin (slots_in_list list.now channel)) }
    ensures writable { IfOk result IsWritableLane }
    ensures formed { IsFormed list.now }
{
    let cadence = Cadence::of(list.rate(), channel);
    Ok(ListLane {
        parts: channel_parts(alloc, list.cues(), channel, cadence)?,
        events: events(alloc, list.cues(), channel, cadence)?,
    })
}

/// What the second list sends in the field of a channel, with the codes for data channel 2 (CTA-608-E). `AllocError` where there is
/// no memory for it.
pub fn second_lane(alloc: Global, list: &CueList, channel: Chan) -> Result<ListLane, AllocError>
    requires { IsRuled list.now }
    ensures lane { IfOk result (IsSecondLane list.now channel) }
    ensures within { IfOk result (HasUnitsWithin (slots_in_list list.now channel)) }
{
    let lane = first_lane(alloc, list, channel)?;
    let in_field = channel.field();
    Ok(ListLane {
        parts: second_parts(alloc, in_field, &lane.parts)?,
        events: second_events(alloc, in_field, &lane.events)?,
    })
}
