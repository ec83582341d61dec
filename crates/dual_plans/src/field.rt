ghost use Rattle.std.specs.Prelude.{◌≡◌, IfErr, IfOk};
ghost use Rattle.cue_lists.specs.Rules.{IsRuled};
ghost use Rattle.frame_carrier.specs.SlotLists.{slots_in_list};
ghost use Rattle.dual_fields.specs.Filled.{IsFault, IsFilled, slots_at};
ghost use Rattle.dual_plans.specs.FieldPlaces.{first_units, second_units, slots_for_first, slots_for_second};
ghost use Rattle.dual_plans.specs.OtherList.{AreAlike};
ghost use Rattle.dual_plans.specs.StartedFields.{IsStarted};

use crate::list_lane::{ListLane, first_lane, second_lane};
use crate::places::{first_places, second_places};
use cue_lists::{Cadence, CueList};
use dual_fields::Place;
use lanes::PlanFault;
use line21_codes::Chan;
use std::alloc::Global;

/// What two lists send in a field, and where the units of the first stand.
#[derive(Drop)]
pub struct StartedField {
    pub one: ListLane,
    pub two: ListLane,
    pub places: Vec<Place>,
}

/// Places the units of the first list in the field of a channel, beside the events of the second. The answer is the earliest
/// placement, or the first cue that has no room, or out of memory.
pub fn first_field(
    alloc: Global,
    first: &CueList,
    second: &CueList,
    channel: Chan,
) -> Result<StartedField, PlanFault>
    requires first { IsRuled first.now }
    requires second { IsRuled second.now }
    ensures started { IfOk result (IsStarted first.now second.now channel) }
    ensures fault { IfErr result
        (IsFault (slots_for_first first.now second.now channel) (first_units first.now channel)) }
{
    let one = match first_lane(alloc, first, channel) {
        Ok(lane) => lane,
        Err(error) => return Err(PlanFault::Memory(error)),
    };
    let two = match second_lane(alloc, second, channel) {
        Ok(lane) => lane,
        Err(error) => return Err(PlanFault::Memory(error)),
    };
    match first_places(alloc, slots_in(first, channel), &one, &two) {
        Ok(places) => Ok(StartedField { one, two, places }),
        Err(fault) => Err(fault),
    }
}

/// Places the units of the second list in the field of a channel, in which the first list's stand. The answer is as for those.
pub fn second_field(
    alloc: Global,
    first: &CueList,
    second: &CueList,
    channel: Chan,
    field: &StartedField,
) -> Result<Vec<Place>, PlanFault>
    requires alike { AreAlike first.now second.now }
    requires started { IsStarted first.now second.now channel field.now }
    ensures filled { IfOk result
        (λ places. IsFilled (slots_for_second first.now second.now channel
        (slots_at field.now.places.items))
        (second_units second.now channel) places.items) }
    ensures fault { IfErr result
        (IsFault (slots_for_second first.now second.now channel (slots_at field.now.places.items))
        (second_units second.now channel)) }
{
    second_places(
        alloc,
        slots_in(first, channel),
        &field.one,
        &field.places,
        &field.two,
    )
}

// The number of slots of a channel's field in the frames of a list.
fn slots_in(list: &CueList, channel: Chan) -> usize
    ensures { result ≡ slots_in_list list.now channel }
{
    let cadence = Cadence::of(list.rate(), channel);
    cadence.slot_from(list.frames()) as usize
}
