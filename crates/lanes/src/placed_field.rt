ghost use Rattle.std.specs.Prelude.{◌≡◌, ◌+◌, ◌^◌, ◌<◌, IfOk, IfErr};
ghost use Rattle.line21_author.specs.EventOrder.{AreApart};
ghost use Rattle.lanes.specs.FieldPlan.{AreInEarliest, IsFieldFault, IsFieldPlan, field_chunk_cue};
ghost use Rattle.lanes.specs.LaneRoom.{AreInCueOrder};
ghost use Rattle.lanes.specs.LaneTimeline.{placed_timeline};
ghost use Rattle.lanes.specs.Timeline.{slot};

use crate::PlanFault;
use crate::chunk::FieldChunk;
use crate::field_cursor::Cursor;
use crate::field_front::Front;
use crate::placed_unit::PlacedUnit;
use line21_author::Event;
use line21_codes::Pair;
use std::alloc::Global;
use std::marker::Model;

/// What a field carries: the units of its cues in file order, and its events in the order of their
/// slots.
#[derive(Drop)]
pub struct FieldLane {
    pub chunks: Vec<FieldChunk>,
    pub events: Vec<Event>,
}

impl FieldLane {
    /// Places each unit in the first slot that its cue, the units before it and the events allow.
    /// The answer is the lane at slot 0, or the first cue that has no room, or out of memory.
    pub fn place(self, alloc: Global) -> Result<PlacedField, PlanFault>
        requires order { AreInCueOrder field_chunk_cue self.chunks.items }
        requires apart { AreApart self.events.items }
        ensures planned { IfOk result (IsFieldPlan self.events.items self.chunks.items) }
        ensures fault { IfErr result (IsFieldFault self.events.items self.chunks.items) }
    {
        let units = placed_units(alloc, &self.chunks, &self.events)?;
        Ok(PlacedField {
            units,
            events: self.events,
            cursor: Cursor::start(),
        })
    }
}

// The units in their earliest placement, or the first cue that has no room.
fn placed_units(
    alloc: Global,
    chunks: &[FieldChunk],
    events: &[Event],
) -> Result<Vec<PlacedUnit>, PlanFault>
    requires order { AreInCueOrder field_chunk_cue chunks.now }
    requires apart { AreApart events.now }
    ensures units { IfOk result (λ units. AreInEarliest events.now chunks.now units.items) }
    ensures fault { IfErr result (IsFieldFault events.now chunks.now) }
{
    let mut units = Vec::new(alloc);
    let mut front = Front::start();
    for chunk in chunks {
        let Some(slot) = front.place(*chunk, events) else {
            return Err(PlanFault::NoRoom(chunk.cue));
        };
        let placed = PlacedUnit {
            unit: chunk.unit,
            slot,
        };
        if let Err(error) = units.push(placed) {
            return Err(PlanFault::Memory(error.into()));
        }
    }
    Ok(units)
}

/// A field's lane with its units in their earliest slots, read slot by slot.
#[derive(Drop)]
pub struct PlacedField {
    units: Vec<PlacedUnit>,
    events: Vec<Event>,
    cursor: Cursor,
}

impl Model for PlacedField {
    ghost use Rattle.lanes.specs.LaneCursor.{IsReadyForPairs};
    ghost use Rattle.lanes.specs.FieldPlan.{PlannedField};
    ghost use Rattle.lanes.specs.LaneTimeline.{placed_timeline};

    ghost Value = { PlannedField };

    ghost view = { λ plan. record {
      units = plan.units.items;
      events = plan.events.items;
      slot = plan.cursor.slot;
    } };

    ghost invariant = { λ plan.
        IsReadyForPairs (placed_timeline plan.events.items plan.units.items) plan.events.items plan.units.items plan.cursor };
}

impl PlacedField {
    ghost use Rattle.lanes.specs.LaneCursor.{IsReadyForPairs};
    ghost use Rattle.std.specs.Prelude.{None};

    /// A lane of units in their slots and of events, at slot 0.
    pub fn of(units: Vec<PlacedUnit>, events: Vec<Event>) -> PlacedField
        requires { IsReadyForPairs
            (placed_timeline events.items units.items) events.items units.items
            (record { slot = 0; next_unit = 0; next_event = 0; repeat = None }) }
        ensures { result ≡ record { units = units.items; events = events.items; slot = 0 } }
    {
        PlacedField {
            units,
            events,
            cursor: Cursor::start(),
        }
    }

    /// The pair of the next slot, in order from slot 0.
    pub fn next(&mut self) -> Pair
        requires { self.old.slot + 1 < 2 ^ 32 }
        ensures pair { result ≡ slot
            (placed_timeline self.old.events self.old.units) self.old.slot }
        ensures moves { self.new ≡ record self.old { slot = self.old.slot + 1 } }
    {
        self.cursor.step(&self.units, &self.events)
    }
}
