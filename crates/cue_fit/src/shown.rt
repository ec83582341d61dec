ghost use Rattle.std.specs.Prelude.{◌≡◌, ◌<◌, ◌≤◌, All, IfOk, OnOk, if◌then◌else◌, length, reverse};
ghost use Rattle.cue_lists.specs.Cues.{IsCueFormed};
ghost use Rattle.cue_lists.specs.Lane.{kind_lane};
ghost use Rattle.cue_lists.specs.Listing.{IsFormed, most_cues};
ghost use Rattle.cue_lists.specs.Printing.{in_order};
ghost use Rattle.cue_lists.specs.Rules.Former.{former_cue};
ghost use Rattle.cue_fit.specs.Fitted.{list_of};
ghost use Rattle.cue_fit.specs.Shown.{hidden_in, load_after, takes_place, with_shown};

use crate::copies::{copies, copy_of};
use crate::former::{former_index, load_after, takes_place};
use cue_lists::head::Head;
use cue_lists::{Cue, CueList, Share, Version};
use std::alloc::{AllocError, Global};

/// Adds a copy of a cue after those so far, shown in this frame. Where it takes the place of the former one, the HIDE of that one goes
/// with it.
pub fn add_shown(alloc: Global, cues: &mut Vec<Cue>, cue: &Cue, show: u32) -> Result<(), AllocError>
    ensures { OnOk result (cues.new.items
        ≡ reverse (with_shown show cue.now (reverse cues.old.items))) }
{
    let mut shown = copy_of(alloc, cue)?;
    shown.show = show;
    shown.load = move_former(cues, cue, show);
    cues.push(shown)?;
    Ok(())
}

/// The LOAD of a cue after those so far. Where it takes the place of the former one, that one is hidden in this frame.
fn move_former(cues: &mut Vec<Cue>, cue: &Cue, show: u32) -> u32
    ensures load { result ≡ load_after cue.now (former_cue cue.now (reverse cues.old.items)) }
    ensures moved { cues.new.items
        ≡ reverse (if takes_place cue.now (former_cue cue.now (reverse cues.old.items))
        then hidden_in show (kind_lane cue.now.kind) (reverse cues.old.items)
        else reverse cues.old.items) }
{
    let Some(index) = former_index(cues.as_slice(), cue.kind) else {
        return cue.load;
    };
    let load = load_after(cue, &cues[index]);
    if !takes_place(cue, &cues[index]) {
        return load;
    }
    cues[index].hide = Some(show);
    load
}

/// The list of the cues so far with a cue after them, shown in this frame. The header and the shares are `list`'s.
pub fn list_with_shown(
    alloc: Global,
    list: &CueList,
    earlier: &[Cue],
    cue: &Cue,
    show: u32,
) -> Result<CueList, AllocError>
    requires list { IsFormed list.now }
    requires formed { All IsCueFormed earlier.now }
    requires few { length earlier.now < most_cues }
    requires cue { IsCueFormed cue.now }
    ensures { IfOk result (λ longer. longer
        ≡ list_of list.now (with_shown show cue.now (reverse earlier.now))) }
{
    let mut cues = copies(alloc, earlier)?;
    add_shown(alloc, &mut cues, cue, show)?;
    list_with(alloc, list, cues)
}

/// The list with these cues in place of its own, its shares in the order in which they are written.
pub fn list_with(alloc: Global, list: &CueList, cues: Vec<Cue>) -> Result<CueList, AllocError>
    requires list { IsFormed list.now }
    requires formed { All IsCueFormed cues.items }
    requires few { length cues.items ≤ most_cues }
    ensures { IfOk result (λ other. other ≡ record (in_order list.now) { cues = cues.items }) }
{
    let shares = shares_of(alloc, list)?;
    let head = Head {
        version: Version::Two,
        rate: list.rate(),
        frames: list.frames(),
    };
    Ok(CueList::new(head, shares, cues))
}

/// The shares of a list, in ascending order of their services.
fn shares_of(alloc: Global, list: &CueList) -> Result<Vec<Share>, AllocError>
    ensures { IfOk result (λ shares. shares.items ≡ (in_order list.now).shares) }
{
    let mut shares = Vec::new(alloc);
    for service in [1, 2, 3, 4, 5, 6].as_slice() {
        if let Some(bytes) = list.share(*service) {
            shares.push(Share {
                service: *service,
                bytes,
            })?;
        }
    }
    Ok(shares)
}
