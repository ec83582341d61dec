ghost use Rattle.std.specs.Prelude.{◌≡◌, ◌+◌, ◌<◌, ◌^◌, ◌||◌, ℕ, true, false, if◌then◌else◌, Some};
ghost use Rattle.dtvcc_screen.specs.Cores.{after_tick, clean};
ghost use Rattle.dtvcc_services.specs.Numbers.{IsService};
ghost use Rattle.dtvcc_services.specs.Passing.{HaveStepped, NoneEndsBefore, least_with};

use crate::members::Member;
use dtvcc_screen::Clock;

/// What a pass over all services found.
#[derive(Clone, Copy)]
pub(crate) struct Passed {
    /// No delay ends before this frame.
    pub(crate) next: u64,
    /// Something that is shown may have changed.
    pub(crate) seen: bool,
}

/// Whether a number is a service's.
pub(crate) fn is_service(number: u8) -> bool
    ensures yes { result ≡ true → IsService number }
    ensures no { result ≡ false → IsService number → ⊥ }
{
    matches!(number, 1..=63)
}

/// The place of a service among all.
pub(crate) fn place(service: u8) -> usize
    requires { IsService service }
    ensures place { result + 1 ≡ service }
    ensures within { result < 63 }
{
    usize::from(service - 1)
}

/// The earlier one of a frame and of the end of a delay, if there is one.
pub(crate) fn earlier(frame: u64, end: Option<u64>) -> u64
    ensures { result ≡ least_with frame end }
{
    match end {
        None => frame,
        Some(end) => frame.min(end),
    }
}

/// Whether one or the other holds.
pub(crate) fn either(one: bool, other: bool) -> bool
    ensures { result ≡ (one || other) }
{
    one || other
}

/// The lowest service that was filled, where this one may be filled too.
pub(crate) fn lowest(filled: Option<u8>, service: u8, full: bool) -> Option<u8>
    ensures { result ≡ (if full then Some (least_with service filled) else filled) }
{
    if !full {
        return filled;
    }
    Some(match filled {
        None => service,
        Some(other) => service.min(other),
    })
}

/// A frame begins, which the clock counts already: lets all services know, if a delay may end in it.
pub(crate) fn pass(members: &mut [Member], next: u64, clock: Clock) -> Passed
    requires { clock.ticks < 2 ^ 32 }
    ensures { NoneEndsBefore next members.old
        → HaveStepped (after_tick clock) result.next result.seen members.old members.new }
{
    if clock.ticks < next {
        return Passed { next, seen: false };
    }
    tick_all(members, clock)
}

// Lets all services know that a frame begins.
fn tick_all(members: &mut [Member], clock: Clock) -> Passed
    requires { clock.ticks < 2 ^ 32 }
    ensures { HaveStepped (after_tick clock) result.next result.seen members.old members.new }
{
    let mut next = u64::MAX;
    let mut seen = false;
    for place in 0..members.len() {
        let member = &mut members[place];
        let changed = member.tick(clock);
        next = earlier(next, member.core.until());
        seen = either(seen, changed);
    }
    Passed { next, seen }
}

/// Resets all services, and says whether something that is shown may have changed.
pub(crate) fn reset_all(members: &mut [Member]) -> bool
    ensures { (next : ℕ) → HaveStepped (λ state. clean) next result members.old members.new }
{
    let mut seen = false;
    for place in 0..members.len() {
        let changed = members[place].reset();
        seen = either(seen, changed);
    }
    seen
}
