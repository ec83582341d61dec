ghost use Rattle.std.specs.Prelude.{◌≡◌, ◌+◌, ◌^◌, ◌<◌, IfSome, IfNone};

use crate::placed_unit::PlacedUnit;
use line21_author::Event;
use line21_codes::{NULL_PAIR, Pair};

/// A place in a lane's units and events, from which the pair of each slot is given in turn.
#[derive(Clone, Copy, PartialEq, Eq)]
pub struct Cursor {
    slot: u32,
    next_unit: usize,
    next_event: usize,
    repeat: Option<Pair>,
}

impl Cursor {
    ghost use Rattle.lanes.specs.LaneCursor.{GivesSlot, IsReadyForPairs, IsNext};
    ghost use Rattle.lanes.specs.Timeline.{Timeline};

    /// The cursor at slot 0.
    pub fn start() -> Self
        ensures { result ≡ record { slot = 0; next_unit = 0; next_event = 0; repeat = None } }
    {
        Cursor {
            slot: 0,
            next_unit: 0,
            next_event: 0,
            repeat: None,
        }
    }

    /// Gives the pair of the cursor's slot, and moves on by one slot.
    pub fn step(&mut self, units: &[PlacedUnit], events: &[Event]) -> Pair
        requires { self.old.slot + 1 < 2 ^ 32 }
        ensures slot { self.new.slot ≡ self.old.slot + 1 }
        ensures gives { (timeline : Timeline)
            → IsReadyForPairs timeline events.now units.now self.old
            → GivesSlot timeline events.now units.now self.old self.new result }
    {
        let pair = if let Some(pair) = self.repeat {
            self.repeat = None;
            pair
        } else if let Some(event) = self.event_here(events) {
            self.next_event += 1;
            self.repeat = Some(event.pair);
            event.pair
        } else if let Some(placed) = self.unit_here(units) {
            self.next_unit += 1;
            self.repeat = placed.unit.repeat();
            placed.unit.pair
        } else {
            NULL_PAIR
        };
        self.slot += 1;
        pair
    }

    // The next event, if it begins at the cursor's slot.
    fn event_here(&self, events: &[Event]) -> Option<Event>
        ensures some { IfSome result
            (λ event. IsNext events.now self.now.next_event event × (event.slot ≡ self.now.slot)) }
        ensures none { IfNone result
            ((event : Event) → IsNext events.now self.now.next_event event
            → event.slot ≡ self.now.slot → ⊥) }
    {
        match events.get(self.next_event) {
            Some(event) if event.slot == self.slot => Some(*event),
            _ => None,
        }
    }

    // The next unit, if it begins at the cursor's slot.
    fn unit_here(&self, units: &[PlacedUnit]) -> Option<PlacedUnit>
        ensures some { IfSome result
            (λ placed. IsNext units.now self.now.next_unit placed × (placed.slot ≡ self.now.slot)) }
        ensures none { IfNone result
            ((placed : PlacedUnit) → IsNext units.now self.now.next_unit placed
            → placed.slot ≡ self.now.slot → ⊥) }
    {
        match units.get(self.next_unit) {
            Some(placed) if placed.slot == self.slot => Some(*placed),
            _ => None,
        }
    }
}
