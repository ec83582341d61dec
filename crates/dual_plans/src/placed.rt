ghost use Rattle.std.specs.Prelude.{◌≡◌, IfOk};
ghost use Rattle.line21_author.specs.EventOrder.{AreApart};
ghost use Rattle.dual_fields.specs.Filled.{resumes_at, slots_at};
ghost use Rattle.dual_plans.specs.Joined.{IsLaneOf};
ghost use Rattle.dual_plans.specs.PlacedLanes.{CanStand};

use crate::list_lane::ListLane;
use crate::units_in;
use dual_fields::Place;
use lanes::PlacedField;
use std::alloc::{AllocError, Global};

/// A lane with its units in their places, and the first units of cues where they come again, at slot 0. `AllocError` where there is
/// no memory for it.
pub fn placed_lane(
    alloc: Global,
    lane: ListLane,
    places: &[Place],
) -> Result<PlacedField, AllocError>
    requires apart { AreApart lane.events.items }
    requires stand { CanStand lane places.now }
    ensures lane { IfOk result
        (IsLaneOf lane.events.items lane.parts.items (slots_at places.now)
        (resumes_at places.now)) }
    ensures start { IfOk result (λ planned. planned.slot ≡ 0) }
{
    let units = units_in(alloc, &lane.parts, places)?;
    Ok(PlacedField::of(units, lane.events))
}
