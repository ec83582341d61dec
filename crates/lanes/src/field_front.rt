ghost use Rattle.std.specs.Prelude.{◌≡◌, ℕ, ◌+◌, ◌^◌, ◌<◌, ◌≤◌, IfSome, IfNone};
ghost use Rattle.line21_author.specs.EventOrder.{AreApart};
ghost use Rattle.lanes.specs.FieldLane.{IsAllowedInField, slots_of};
ghost use Rattle.lanes.specs.FirstFit.{IsFirst};

use crate::chunk::FieldChunk;
use line21_author::Event;

/// How far units have been placed: the first slot after them, and how many events are over by then.
#[derive(Clone, Copy, PartialEq, Eq)]
pub struct Front {
    end: u64,
    passed: usize,
}

impl Front {
    ghost use Rattle.lanes.specs.LaneFront.{IsFrontOfEvents, IsFirstFree};

    /// The front where no unit is placed.
    pub fn start() -> Self
        ensures { result ≡ record { end = 0; passed = 0 } }
    {
        Front { end: 0, passed: 0 }
    }

    /// Places the unit in the first slot that is allowed after the front, and moves the front
    /// after it. `None` where no slot is allowed; the front is of no use then. No event that was passed is
    /// tried again.
    pub fn place(&mut self, chunk: FieldChunk, events: &[Event]) -> Option<u32>
        requires small { self.old.end < 2 ^ 32 }
        requires apart { AreApart events.now }
        requires front { IsFrontOfEvents events.now self.old }
        ensures first { IfSome result (IsFirst (IsAllowedInField events.now self.old.end chunk)) }
        ensures end { IfSome result
            (λ slot. (self.new.end ≡ slot + slots_of chunk) × (self.new.end < 2 ^ 32)) }
        ensures front { IfSome result (λ _. IsFrontOfEvents events.now self.new) }
        ensures onward { self.old.passed ≤ self.new.passed }
        ensures none { IfNone result
            ((slot : ℕ) → IsAllowedInField events.now self.old.end chunk slot → ⊥) }
    {
        let slots = chunk.unit.slots();
        self.end = self.end.max(u64::from(chunk.load));
        self.pass_events(slots, events);
        let slot = self.end;
        self.end += u64::from(slots);
        if self.end <= u64::from(chunk.until) {
            Some(slot as u32)
        } else {
            None
        }
    }

    // Moves the front on to the first slot from which on this many slots are free.
    fn pass_events(&mut self, slots: u32, events: &[Event])
        requires small { self.old.end < 2 ^ 32 }
        requires some { 1 ≤ slots }
        requires few { slots ≤ 2 }
        requires apart { AreApart events.now }
        requires front { IsFrontOfEvents events.now self.old }
        ensures small { self.new.end < 2 ^ 33 }
        ensures first { IsFirstFree events.now slots self.old.end self.new.end }
        ensures front { IsFrontOfEvents events.now self.new }
        ensures onward { self.old.passed ≤ self.new.passed }
    {
        let slots = u64::from(slots);
        while let Some(event) = events.get(self.passed)
            && u64::from(event.slot) < self.end + slots
        {
            self.end = self.end.max(event.end());
            self.passed += 1;
        }
    }
}
