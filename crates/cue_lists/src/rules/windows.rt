ghost use Rattle.cue_types.specs.Cues.{IsCueFormed};
ghost use Rattle.cue_types.specs.Listing.{Listing};
ghost use Rattle.std.specs.Prelude.{◌≡◌, ◌≤◌, [], ◌∷◌, All, None, reverse};
ghost use Rattle.std.specs.Option.{ForSome};
ghost use Rattle.cue_lists.specs.Rules.Tests.{AreFaultless};
ghost use Rattle.cue_lists.specs.Rules.Alternatives.{first_broken, with_earlier};
ghost use Rattle.cue_lists.specs.Rules.Delay.{delay_of, delay_start, event_frames};
ghost use Rattle.cue_lists.specs.Rules.DelayCovers.{delay_covers, delays_cross, same_service, delay_has, same_start};
ghost use Rattle.cue_lists.specs.Rules.Former.{former_cue};
ghost use Rattle.cue_lists.specs.Rules.Formers.{Remembers, later, number_if, numbered_cue};
ghost use Rattle.cue_lists.specs.Rules.Order.{order};
ghost use Rattle.cue_lists.specs.Rules.Share.{share};
ghost use Rattle.cue_lists.specs.Rules.WindowBusy.{window_busy, keeps_window, same_window};

use crate::rules::against::Against;
use crate::rules::formers::{Formers, cue_of};
use crate::rules::order::delay;
use cc_base::Rate;
use cue_types::{Cue, CueList, Kind};

/// Whom a cue breaks the rule WindowBusy against: the last cue in its window, where that still uses it. No cue before that
/// one does, in a list that keeps the rules so far: it was hidden before that one loaded.
pub fn breaks_window_busy(cue: &Cue, earlier: &[Cue], formers: &Formers) -> Option<Against>
    requires formed { IsCueFormed cue.now }
    requires earlier { All IsCueFormed earlier.now }
    requires formers { Remembers formers.now (reverse earlier.now) }
    ensures { (list : Listing) → AreFaultless list (reverse earlier.now)
        → result ≡ first_broken (window_busy cue.now (reverse earlier.now)) }
{
    let Kind::Win(window) = cue.kind else {
        return None;
    };
    let number = formers.last_in(window.service, window.id);
    against(busy(cue, earlier, number))
}

/// The number of an earlier cue, where the cue has it and still uses the window.
fn busy(cue: &Cue, earlier: &[Cue], number: Option<u32>) -> Option<u32>
    requires { ForSome number (λ n. 1 ≤ n) }
    ensures { result ≡ number_if (keeps_window cue.now) number (numbered_cue earlier.now number) }
{
    let other = cue_of(earlier, number)?;
    if keeps_window(cue, other) {
        number
    } else {
        None
    }
}

/// The earlier cue of a number, if there is one.
fn against(number: Option<u32>) -> Option<Against>
    ensures { result ≡ first_broken (with_earlier number ∷ []) }
{
    match number {
        Some(number) => Some(Against::Earlier(number)),
        None => None,
    }
}

/// An earlier cue of the same service and ID has a HIDE above the cue's LOAD.
pub fn keeps_window(cue: &Cue, other: &Cue) -> bool
    ensures { result ≡ keeps_window cue.now other.now }
{
    same_window(cue.kind, other.kind) && matches!(other.hide, Some(hide) if cue.load < hide)
}

/// Two window cues of one service and ID.
fn same_window(a: Kind, b: Kind) -> bool
    ensures { result ≡ same_window a b }
{
    match (a, b) {
        (Kind::Win(a), Kind::Win(b)) => a.service == b.service && a.id == b.id,
        _ => false,
    }
}

/// Whom a cue breaks the rule DelayCovers against, of the last cues in each window of its service. It is the nearest of
/// which an event lies in its delay, or whose delay has an event of the cue, or whose delay starts with its own. No other
/// cue's does, in a list that keeps the rules so far and for a cue that keeps the rule Order: it was hidden before the cue
/// loaded.
pub fn breaks_delay_covers(
    rate: Rate,
    cue: &Cue,
    earlier: &[Cue],
    formers: &Formers,
) -> Option<Against>
    requires formed { IsCueFormed cue.now }
    requires earlier { All IsCueFormed earlier.now }
    requires formers { Remembers formers.now (reverse earlier.now) }
    ensures { (list : Listing) → list.rate ≡ rate → AreFaultless list (reverse earlier.now)
        → first_broken (order rate cue.now (former_cue cue.now (reverse earlier.now))) ≡ None
        → result ≡ first_broken (delay_covers rate cue.now (reverse earlier.now)) }
{
    let Kind::Win(window) = cue.kind else {
        return None;
    };
    let mut nearest = None;
    for id in 0..8u8 {
        let number = formers.last_in(window.service, id);
        nearest = later(nearest, crossing(rate, cue, earlier, number));
    }
    against(nearest)
}

/// The number of an earlier cue, where the delays of the cue that has it and of this one cross.
fn crossing(rate: Rate, cue: &Cue, earlier: &[Cue], number: Option<u32>) -> Option<u32>
    requires { ForSome number (λ n. 1 ≤ n) }
    ensures { result ≡ number_if (delays_cross rate cue.now) number
        (numbered_cue earlier.now number) }
{
    let other = cue_of(earlier, number)?;
    if delays_cross(rate, cue, other) {
        number
    } else {
        None
    }
}

/// The later of two cues, by their numbers.
fn later(a: Option<u32>, b: Option<u32>) -> Option<u32>
    ensures { result ≡ later a b }
{
    match (a, b) {
        (None, _) => b,
        (Some(_), None) => a,
        (Some(a), Some(b)) => Some(a.max(b)),
    }
}

/// Two cues of one service have the same delay start, or an event frame of one lies in the delay of the other.
pub fn delays_cross(rate: Rate, cue: &Cue, other: &Cue) -> bool
    ensures { result ≡ delays_cross rate cue.now other.now }
{
    same_service(cue.kind, other.kind)
        && (same_start(rate, cue, other)
            || delay_has(rate, cue, other)
            || delay_has(rate, other, cue))
}

/// Two window cues of one service.
fn same_service(a: Kind, b: Kind) -> bool
    ensures { result ≡ same_service a b }
{
    match (a, b) {
        (Kind::Win(a), Kind::Win(b)) => a.service == b.service,
        _ => false,
    }
}

/// Two cues have the same delay start.
fn same_start(rate: Rate, cue: &Cue, other: &Cue) -> bool
    ensures { result ≡ same_start (delay_start rate cue.now) (delay_start rate other.now) }
{
    match (delay_start(rate, cue), delay_start(rate, other)) {
        (Some(start), Some(other_start)) => start == other_start,
        _ => false,
    }
}

/// An event frame of the other cue lies strictly between the delay start and the SHOW of a cue.
fn delay_has(rate: Rate, cue: &Cue, other: &Cue) -> bool
    ensures { result ≡ delay_has (delay_start rate cue.now) cue.now.show
        (event_frames rate other.now) }
{
    let Some(start) = delay_start(rate, cue) else {
        return false;
    };
    let shown = delay_start(rate, other).unwrap_or(other.show);
    (start < shown && shown < cue.show)
        || matches!(other.hide, Some(hide) if start < hide && hide < cue.show)
}

/// The frame in which the delay of a cue starts, if it has one.
fn delay_start(rate: Rate, cue: &Cue) -> Option<u32>
    ensures { result ≡ delay_start rate cue.now }
{
    let tenths = delay(cue.kind);
    if tenths > 0 {
        Some(cue.show.saturating_sub(rate.delay_frames(tenths)))
    } else {
        None
    }
}

/// Whether a cue breaks the rule Share: it is a window cue, and its service has no share.
pub fn breaks_share(list: &CueList, cue: &Cue) -> Option<Against>
    ensures { result ≡ first_broken (share list.now cue.now) }
{
    match cue.kind {
        Kind::Win(window) if list.share(window.service).is_none() => Some(Against::Itself),
        _ => None,
    }
}
