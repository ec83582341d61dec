ghost use Rattle.std.specs.Prelude.{◌≡◌, ◌<◌, All, IfOk, OnOk, if◌then◌else◌, length, reverse};
ghost use Rattle.cue_lists.specs.Cues.{IsCueFormed};
ghost use Rattle.cue_lists.specs.Lane.{kind_lane};
ghost use Rattle.cue_lists.specs.Listing.{IsFormed, most_cues};
ghost use Rattle.cue_lists.specs.Rules.Former.{former_cue};
ghost use Rattle.cue_fit.specs.Fitted.{list_of};
ghost use Rattle.cue_fit.specs.Shown.{hidden_in, load_after, takes_place};
ghost use Rattle.dual_fit.specs.Timed.{with_timed};

use crate::times::Times;
use cue_fit::copies::{copies, copy_of};
use cue_fit::former::{former_index, load_after, takes_place};
use cue_fit::shown::list_with;
use cue_lists::{Cue, CueList, Kind};
use std::alloc::{AllocError, Global};

/// The list of the cues so far with a cue after them at these times. The header and the shares are those of `list`.
pub fn list_with_timed(
    alloc: Global,
    list: &CueList,
    takes: bool,
    earlier: &[Cue],
    cue: &Cue,
    times: Times,
) -> Result<CueList, AllocError>
    requires list { IsFormed list.now }
    requires formed { All IsCueFormed earlier.now }
    requires few { length earlier.now < most_cues }
    requires timed { IsCueFormed (record cue.now { show = times.show; hide = times.hide }) }
    ensures { IfOk result (λ longer. longer
        ≡ list_of list.now (with_timed takes times cue.now (reverse earlier.now))) }
{
    let mut cues = copies(alloc, earlier)?;
    add_timed(alloc, &mut cues, takes, cue, times)?;
    list_with(alloc, list, cues)
}

/// Adds a copy of a cue after those so far, at these times. Where it takes the place of the former one, that one is hidden when it is
/// shown.
pub fn add_timed(
    alloc: Global,
    cues: &mut Vec<Cue>,
    takes: bool,
    cue: &Cue,
    times: Times,
) -> Result<(), AllocError>
    ensures { OnOk result (cues.new.items
        ≡ reverse (with_timed takes times cue.now (reverse cues.old.items))) }
{
    let mut timed = copy_of(alloc, cue)?;
    timed.load = load_after_all(cues.as_slice(), cue);
    timed.show = times.show;
    timed.hide = times.hide;
    hide_former(cues, takes, cue.kind, times.show);
    cues.push(timed)?;
    Ok(())
}

/// The LOAD of a cue after those so far: on a channel it isn't below the former one's SHOW.
fn load_after_all(cues: &[Cue], cue: &Cue) -> u32
    ensures { result ≡ load_after cue.now (former_cue cue.now (reverse cues.now)) }
{
    match former_index(cues, cue.kind) {
        Some(index) => load_after(cue, &cues[index]),
        None => cue.load,
    }
}

/// Hides the former cue of one of this kind in this frame, if there is one whose place is taken.
fn hide_former(cues: &mut Vec<Cue>, takes: bool, kind: Kind, frame: u32)
    ensures { cues.new.items
        ≡ reverse (if takes then hidden_in frame (kind_lane kind) (reverse cues.old.items)
        else reverse cues.old.items) }
{
    if !takes {
        return;
    }
    if let Some(index) = former_index(cues.as_slice(), kind) {
        cues[index].hide = Some(frame);
    }
}

/// Whether a cue takes the place of the former one of these: it is a pop-on cue that is shown in the frame in which that one is hidden.
pub fn takes_former(cues: &[Cue], cue: &Cue) -> bool
    ensures { result ≡ takes_place cue.now (former_cue cue.now (reverse cues.now)) }
{
    match former_index(cues, cue.kind) {
        Some(index) => takes_place(cue, &cues[index]),
        None => false,
    }
}
