ghost use Rattle.std.specs.Prelude.{◌≡◌, MatchOption, reverse};
ghost use Rattle.cue_lists.specs.Channels.{is_of_service};
ghost use Rattle.cue_lists.specs.Lane.{kind_lane, same_lane};
ghost use Rattle.cue_fit.specs.Shown.{load_after, takes_place};
ghost use Rattle.cue_fit.specs.Tries.{AreOff, IsLastOn, near};

use cue_lists::lane::{is_line21, is_pop};
use cue_lists::line21::is_on;
use cue_lists::{Cue, Kind};

/// The index of the former cue of a cue of this kind after these cues: the last one of its lane, if there is one.
pub fn former_index(cues: &[Cue], kind: Kind) -> Option<usize>
    ensures { MatchOption result (AreOff (kind_lane kind) cues.now)
        (IsLastOn (kind_lane kind) cues.now) }
{
    let mut index = cues.len();
    while index > 0 {
        index -= 1;
        if share_lane(kind, cues[index].kind) {
            return Some(index);
        }
    }
    None
}

/// The cues after which a cue is tried: on a channel its former cue alone, if there is one. What stands before that one has ended
/// by its SHOW, and neither the rules nor the room of the cue ask for it.
pub fn near_cues<'a>(cues: &'a [Cue], cue: &Cue) -> &'a [Cue]
    ensures { reverse result.now ≡ near cue.now (reverse cues.now) }
{
    if !is_line21(cue.kind) {
        return cues;
    }
    match former_index(cues, cue.kind) {
        Some(index) => &cues[index..index + 1],
        None => &cues[..0],
    }
}

/// Whether cues of both kinds are on one lane.
fn share_lane(one: Kind, other: Kind) -> bool
    ensures { result ≡ same_lane (kind_lane one) (kind_lane other) }
{
    match one {
        Kind::Pop(channel) | Kind::Paint(channel) | Kind::Roll(channel, _) => is_on(channel, other),
        Kind::Win(window) => is_of_service(window.service, other),
    }
}

/// Whether a cue of the kind is in a window of the service.
fn is_of_service(service: u8, kind: Kind) -> bool
    ensures { result ≡ is_of_service service kind }
{
    matches!(kind, Kind::Win(window) if service == window.service)
}

/// Whether a cue takes the place of the former one: it is a pop-on cue that is shown in the frame in which that one is hidden.
pub fn takes_place(cue: &Cue, former: &Cue) -> bool
    ensures { result ≡ takes_place cue.now (Some former.now) }
{
    is_pop(cue.kind) && matches!(former.hide, Some(hide) if hide == cue.show)
}

/// The LOAD of a cue after the former one: on a channel it isn't below that one's SHOW.
pub fn load_after(cue: &Cue, former: &Cue) -> u32
    ensures { result ≡ load_after cue.now (Some former.now) }
{
    if is_line21(cue.kind) {
        cue.load.max(former.show)
    } else {
        cue.load
    }
}
