ghost use Rattle.std.specs.Prelude.{All, IfErr, IfOk};
ghost use Rattle.lanes.specs.LaneRoom.{AreInCueOrder};
ghost use Rattle.dual_fields.specs.Filled.{IsFault, IsFilled};
ghost use Rattle.dual_fields.specs.Parts.{IsBegun, part_cue};
ghost use Rattle.dual_fields.specs.Slots.{slots_in};

use crate::part::Part;
use crate::place::{Place, first_place};
use crate::slot_use::SlotUse;
use lanes::PlanFault;
use std::alloc::Global;

/// Places each unit in the first slot that is allowed after those before it, and the first units of cues again where they are
/// needed. The answer is the earliest placement, or the first cue that has no room, or out of memory.
pub fn place_all(alloc: Global, uses: &[SlotUse], parts: &[Part]) -> Result<Vec<Place>, PlanFault>
    requires begun { All IsBegun parts.now }
    requires order { AreInCueOrder part_cue parts.now }
    ensures filled { IfOk result (λ places. IsFilled (slots_in uses.now) parts.now places.items) }
    ensures fault { IfErr result (IsFault (slots_in uses.now) parts.now) }
{
    let mut places = Vec::new(alloc);
    let mut end = 0u32;
    for part in parts {
        let Some(place) = first_place(uses, end, *part) else {
            return Err(PlanFault::NoRoom(part.chunk.cue));
        };
        end = place.slot + part.chunk.unit.slots();
        if let Err(error) = places.push(place) {
            return Err(PlanFault::Memory(error.into()));
        }
    }
    Ok(places)
}
