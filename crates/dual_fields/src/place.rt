ghost use Rattle.std.specs.Prelude.{◌≡◌, ◌&&◌, ◌||◌, ◌==◌, slice_get, ℕ, ◌+◌, ◌^◌, ◌<◌, IfSome, IfNone};
ghost use Rattle.lanes.specs.FirstFit.{IsFirst};
ghost use Rattle.dual_fields.specs.Parts.{part_slots};
ghost use Rattle.dual_fields.specs.ResumedLane.{IsAllowedBeside, ResumesAt};
ghost use Rattle.dual_fields.specs.Slots.{is_foreign, is_free, slots_in};
ghost use Rattle.dual_fields.specs.Waiting.{is_ready, may_begin, next_resume, resume_of, start_of};

use crate::part::Part;
use crate::slot_use::SlotUse;

/// Where a unit begins, and where its cue's first unit comes again before it. Slots are counted from 0.
#[derive(Clone, Copy, PartialEq, Eq)]
pub struct Place {
    pub slot: u32,
    pub resume: Option<u32>,
}

/// Whether a cue's first unit has to come again before its next unit.
#[derive(Clone, Copy, PartialEq, Eq)]
pub enum Resume {
    /// No foreign slot lay after the unit before.
    NotNeeded,
    /// One did, and two neighbouring free slots didn't follow yet.
    Needed,
    /// These two begin there.
    At(u32),
}

/// The first slot from `end` on in which a unit may begin, and where its cue's first unit comes again before it. `None` where
/// there is no such slot. Slots after the table count as not free.
pub fn first_place(uses: &[SlotUse], end: u32, part: Part) -> Option<Place>
    ensures first { IfSome result
        (λ place. IsFirst (IsAllowedBeside (slots_in uses.now) end part) place.slot) }
    ensures resumes { IfSome result
        (λ place. ResumesAt (slots_in uses.now) end part place.slot place.resume) }
    ensures fits { IfSome result (λ place. place.slot + part_slots part < 2 ^ 32) }
    ensures none { IfNone result
        ((slot : ℕ) → IsAllowedBeside (slots_in uses.now) end part slot → ⊥) }
{
    first_from(uses, start_of(end, part), part)
}

// From which slot on a unit is looked for: for a cue's first unit, before which none comes again, no slot before its LOAD is of interest.
fn start_of(end: u32, part: Part) -> u32
    ensures { result ≡ start_of end part }
{
    if part.later || part.chunk.load <= end {
        end
    } else {
        part.chunk.load
    }
}

// The first slot from `end` on in which a unit may begin, slot by slot.
fn first_from(uses: &[SlotUse], end: u32, part: Part) -> Option<Place>
    ensures first { IfSome result
        (λ place. IsFirst (IsAllowedBeside (slots_in uses.now) end part) place.slot) }
    ensures resumes { IfSome result
        (λ place. ResumesAt (slots_in uses.now) end part place.slot place.resume) }
    ensures fits { IfSome result (λ place. place.slot + part_slots part < 2 ^ 32) }
    ensures none { IfNone result
        ((slot : ℕ) → IsAllowedBeside (slots_in uses.now) end part slot → ⊥) }
{
    let mut slot = end;
    let mut resume = Resume::NotNeeded;
    while slot < part.chunk.until {
        if may_begin(uses, resume, slot, part) {
            return Some(Place {
                slot,
                resume: resume_of(resume, part.later),
            });
        }
        resume = next_resume(
            resume,
            slot,
            is_foreign(uses, slot),
            are_free(uses, slot, 2),
        );
        slot += 1;
    }
    None
}

// Whether the unit may begin at the slot.
fn may_begin(uses: &[SlotUse], resume: Resume, slot: u32, part: Part) -> bool
    ensures { result ≡ may_begin (slots_in uses.now) resume slot part }
{
    let chunk = part.chunk;
    let size = chunk.unit.slots();
    chunk.load <= slot
        && u64::from(slot) + u64::from(size) <= u64::from(chunk.until)
        && are_free(uses, slot, size)
        && (!part.later || is_ready(resume, slot))
}

// Whether the slot at an index is free.
fn is_free(uses: &[SlotUse], index: usize) -> bool
    ensures { result ≡ is_free (slice_get uses.now index) }
{
    matches!(uses.get(index), Some(SlotUse::Free))
}

// Whether the slot is foreign.
fn is_foreign(uses: &[SlotUse], slot: u32) -> bool
    ensures { result ≡ is_foreign (slice_get uses.now slot) }
{
    matches!(uses.get(slot as usize), Some(SlotUse::Foreign))
}

// Whether one slot, or two, are free from a slot on.
fn are_free(uses: &[SlotUse], slot: u32, size: u32) -> bool
    ensures { result ≡ (is_free (slice_get uses.now slot)
        && (size == 1 || is_free (slice_get uses.now (slot + 1)))) }
{
    is_free(uses, slot as usize) && (size == 1 || is_free(uses, slot as usize + 1))
}

// Whether a unit may begin at a slot after what was seen before it.
fn is_ready(resume: Resume, slot: u32) -> bool
    ensures { result ≡ is_ready resume slot }
{
    match resume {
        Resume::NotNeeded => true,
        Resume::Needed => false,
        Resume::At(at) => at < slot && at + 1 < slot,
    }
}

// Where the first unit comes again, which a cue's first unit itself doesn't.
fn resume_of(resume: Resume, later: bool) -> Option<u32>
    ensures { result ≡ resume_of resume later }
{
    match resume {
        Resume::At(at) if later => Some(at),
        _ => None,
    }
}

// What is known after one more slot, which is foreign, or from which on two are free.
fn next_resume(resume: Resume, slot: u32, foreign: bool, two: bool) -> Resume
    ensures { result ≡ next_resume resume slot foreign two }
{
    match resume {
        _ if foreign => Resume::Needed,
        Resume::Needed if two => Resume::At(slot),
        other => other,
    }
}
