ghost use Rattle.std.specs.Prelude.{◌≡◌, ◌+◌, ◌<◌, ◌==◌, ◌&&◌, IfOk, length, nat_le, nat_lt, slice_get, ℕ};
ghost use Rattle.dual_fields.specs.Filled.{slots_at};
ghost use Rattle.dual_fields.specs.Parts.{BeginWithFirst};
ghost use Rattle.dual_fields.specs.Spans.{GoOn};
ghost use Rattle.dual_fields.specs.Tables.{AreMarked, AreSpanned, IsTable, IsTableBeside, use_in};
ghost use Rattle.dual_fields.specs.declared.slot_use.SlotUse.TheVariants.{Foreign};

use crate::part::Part;
use crate::place::Place;
use crate::slot_use::SlotUse;
use line21_author::Event;
use std::alloc::{AllocError, Global};

/// The table of this many slots for the first lane: its own list's events, and the other list's. `AllocError` where there is
/// no memory for it.
pub fn table(
    alloc: Global,
    count: usize,
    own: &[Event],
    others: &[Event],
) -> Result<Vec<SlotUse>, AllocError>
    ensures { IfOk result (λ uses. IsTable count own.now others.now uses.items) }
{
    let mut uses = vec![in alloc; SlotUse::Free; count]?;
    mark(&mut uses, own, SlotUse::Own);
    mark(&mut uses, others, SlotUse::Foreign);
    Ok(uses)
}

/// The table of this many slots for the second lane: the first list's events, its own list's, and the spans of the first lane, whose
/// units stand in these places. `AllocError` where there is no memory for it.
pub fn table_beside(
    alloc: Global,
    count: usize,
    first: &[Event],
    own: &[Event],
    parts: &[Part],
    places: &[Place],
) -> Result<Vec<SlotUse>, AllocError>
    requires begun { BeginWithFirst parts.now }
    requires onward { GoOn 0 parts.now (slots_at places.now) }
    ensures { IfOk result (λ uses. IsTableBeside count first.now own.now parts.now
        (slots_at places.now) uses.items) }
{
    let mut uses = table(alloc, count, own, first)?;
    mark_spans(&mut uses, parts, places);
    Ok(uses)
}

// Marks the spans of a lane's cues.
fn mark_spans(uses: &mut Vec<SlotUse>, parts: &[Part], places: &[Place])
    ensures { AreSpanned uses.old.items uses.new.items parts.now (slots_at places.now) }
{
    let mut end = 0usize;
    let mut index = 0;
    while index < parts.len() && index < places.len() {
        let part = parts[index];
        let slot = places[index].slot as usize;
        let from = if part.later { end } else { slot };
        end = slot + part.chunk.unit.slots() as usize;
        fill(uses, from, end);
        index += 1;
    }
}

// Marks the slots from one on and before another.
fn fill(uses: &mut Vec<SlotUse>, from: usize, to: usize)
    ensures count { length uses.new.items ≡ length uses.old.items }
    ensures uses { (n : ℕ) → n < length uses.old.items
        → slice_get uses.new.items n
        ≡ use_in (nat_le from n && nat_lt n to) Foreign (slice_get uses.old.items n) }
{
    for at in from..to {
        set(uses, at, SlotUse::Foreign);
    }
}

// Marks the two slots of each event.
fn mark(uses: &mut Vec<SlotUse>, events: &[Event], value: SlotUse)
    ensures { AreMarked uses.old.items uses.new.items events.now value }
{
    for event in events {
        let at = event.slot as usize;
        set(uses, at, value);
        set(uses, at + 1, value);
    }
}

// Marks a slot, where the table has it.
fn set(uses: &mut Vec<SlotUse>, at: usize, value: SlotUse)
    ensures count { length uses.new.items ≡ length uses.old.items }
    ensures uses { (n : ℕ) → n < length uses.old.items
        → slice_get uses.new.items n ≡ use_in (at == n) value (slice_get uses.old.items n) }
{
    if at < uses.len() {
        uses[at] = value;
    }
}
