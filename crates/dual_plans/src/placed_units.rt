ghost use Rattle.std.specs.Prelude.{◌≡◌, ◌++◌, IfOk, OnOk};
ghost use Rattle.dual_plans.specs.PlacedUnits.{unit_in, units_in};

use dual_fields::{Part, Place};
use lanes::PlacedUnit;
use std::alloc::{AllocError, Global};

/// The units of a lane in their places, in order, with the first units of cues where they come again. `AllocError` where there is
/// no memory for them.
pub fn units_in(
    alloc: Global,
    parts: &[Part],
    places: &[Place],
) -> Result<Vec<PlacedUnit>, AllocError>
    ensures { IfOk result (λ units. units.items ≡ units_in parts.now places.now) }
{
    let mut units = Vec::new(alloc);
    let mut index = 0;
    while index < parts.len() && index < places.len() {
        push_unit(&mut units, parts[index], places[index])?;
        index += 1;
    }
    Ok(units)
}

// Appends a unit in its place, after the first one of its cue where that comes again.
fn push_unit(units: &mut Vec<PlacedUnit>, part: Part, place: Place) -> Result<(), AllocError>
    ensures { OnOk result (units.new.items
        ≡ units.old.items ++ unit_in part place.slot place.resume) }
{
    if let Some(slot) = place.resume {
        units.push(PlacedUnit {
            unit: part.first,
            slot,
        })?;
    }
    units.push(PlacedUnit {
        unit: part.chunk.unit,
        slot: place.slot,
    })?;
    Ok(())
}
