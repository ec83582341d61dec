ghost use Rattle.std.specs.Prelude.{IfErr, IfOk};
ghost use Rattle.lanes.specs.LaneEvents.{event_at};
ghost use Rattle.dual_fields.specs.FieldSlots.{first_slots, second_slots};
ghost use Rattle.dual_fields.specs.Filled.{IsFault, IsFilled, slots_at};
ghost use Rattle.dual_fields.specs.Spans.{in_spans};
ghost use Rattle.dual_plans.specs.ListLanes.{HasUnitsWithin};

use crate::list_lane::ListLane;
use dual_fields::{Place, place_all, table, table_beside};
use lanes::PlanFault;
use std::alloc::Global;

/// Places the units of the first lane in a field of this many slots, beside the events of the second. The answer is the earliest
/// placement, or the first cue that has no room, or out of memory.
pub fn first_places(
    alloc: Global,
    count: usize,
    one: &ListLane,
    two: &ListLane,
) -> Result<Vec<Place>, PlanFault>
    requires { HasUnitsWithin count one.now }
    ensures filled { IfOk result
        (λ places. IsFilled (first_slots (event_at one.now.events.items)
        (event_at two.now.events.items)) one.now.parts.items places.items) }
    ensures fault { IfErr result
        (IsFault (first_slots (event_at one.now.events.items)
        (event_at two.now.events.items)) one.now.parts.items) }
{
    let count = slots_needed(count, one);
    match table(alloc, count, &one.events, &two.events) {
        Ok(uses) => place_all(alloc, &uses, &one.parts),
        Err(error) => Err(PlanFault::Memory(error)),
    }
}

/// Places the units of the second lane in a field of this many slots, beside the events of the first and its spans, where its units
/// stand in these places. The answer is as for the first.
pub fn second_places(
    alloc: Global,
    count: usize,
    one: &ListLane,
    places: &[Place],
    two: &ListLane,
) -> Result<Vec<Place>, PlanFault>
    requires first { HasUnitsWithin count one.now }
    requires placed { IsFilled
        (first_slots (event_at one.now.events.items)
        (event_at two.now.events.items)) one.now.parts.items places.now }
    requires second { HasUnitsWithin count two.now }
    ensures filled { IfOk result
        (λ others. IsFilled (second_slots (event_at one.now.events.items)
        (event_at two.now.events.items)
        (in_spans one.now.parts.items (slots_at places.now))) two.now.parts.items others.items) }
    ensures fault { IfErr result
        (IsFault (second_slots (event_at one.now.events.items) (event_at two.now.events.items)
        (in_spans one.now.parts.items (slots_at places.now))) two.now.parts.items) }
{
    let count = slots_needed(count, two);
    match table_beside(alloc, count, &one.events, &two.events, &one.parts, places) {
        Ok(uses) => place_all(alloc, &uses, &two.parts),
        Err(error) => Err(PlanFault::Memory(error)),
    }
}

// How many slots a table has to list for a lane: none where it has no units.
fn slots_needed(count: usize, lane: &ListLane) -> usize
    requires { HasUnitsWithin count lane.now }
    ensures { HasUnitsWithin result lane.now }
{
    if lane.parts.is_empty() { 0 } else { count }
}
