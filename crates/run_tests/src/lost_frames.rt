//! What a concealing receiver shows of a list's words of which frames are lost. After each loss it shows the authored grids again, on each
//! channel and in each service, from the SHOW of a cue on that resynchronises it. Each frame, each two neighbours and each front are lost
//! in turn.

ghost use Rattle.std.specs.Prelude.{◌≤◌, ℕ, List};
ghost use Rattle.cc_conceal.specs.Concealers.{HasConcealed};
ghost use Rattle.dtvcc_services.specs.Numbers.{IsService};
ghost use Rattle.cc_verifier.specs.WindowSeen.{IsFormedCue};

use crate::given::given_of;
use cc_conceal::Concealer;
use cc_verifier::{Line, cell_at, window_differs};
use cue_lists::lane::is_pop;
use cue_lists::line21::{base_row, continues, is_on};
use cue_lists::{Cue, CueList, Kind, check, parse};
use line21_codes::Chan;
use memory_runs::{Status, run_to_end};
use std::alloc::{AllocError, Global};
use std::test::Fail;

/// The number of the last cue of a channel among this many that stand first, counted from 0.
fn last_on(cues: &[Cue], channel: Chan, count: usize) -> Option<usize> {
    let mut last = None;
    for (number, cue) in cues.iter().take(count).enumerate() {
        if is_on(channel, cue.kind) {
            last = Some(number);
        }
    }
    last
}

/// The number of the last cue of a channel whose SHOW has come at a frame.
fn newest_on(cues: &[Cue], channel: Chan, frame: u32) -> Option<usize> {
    let mut newest = None;
    for (number, cue) in cues.iter().enumerate() {
        if is_on(channel, cue.kind) && cue.show <= frame {
            newest = Some(number);
        }
    }
    newest
}

/// Whether the cue of a number continues the one before it on its channel.
fn goes_on(cues: &[Cue], channel: Chan, number: usize) -> bool {
    let Some(former) = last_on(cues, channel, number) else {
        return false;
    };
    match (cues.get(number), cues.get(former)) {
        (Some(cue), Some(former)) => continues(cue, former),
        _ => false,
    }
}

/// The cue that stands this many rows above a roll-up cue: each is continued by the next one.
fn above(cues: &[Cue], channel: Chan, number: usize, rows: u8) -> Option<usize> {
    let mut above = number;
    for _ in 0..rows {
        if !goes_on(cues, channel, above) {
            return None;
        }
        above = last_on(cues, channel, above)?;
    }
    Some(above)
}

/// Whether the HIDE of a cue has come by a frame; an empty one never comes.
fn is_past(cue: &Cue, frame: u32) -> bool {
    matches!(cue.hide, Some(hide) if hide <= frame)
}

/// What a channel is to show in a row at a frame.
fn line_of(cues: &[Cue], channel: Chan, frame: u32, row: u8) -> Option<Line> {
    let number = newest_on(cues, channel, frame)?;
    let cue = cues.get(number)?;
    if is_past(cue, frame) {
        return None;
    }
    let Kind::Roll(_, rows) = cue.kind else {
        return Some(Line { cue: number, row });
    };
    let base = base_row(cue);
    let height = base.checked_sub(row)?;
    if rows <= height {
        return None;
    }
    let cue = above(cues, channel, number, height)?;
    Some(Line { cue, row: base })
}

/// Whether a frame is settled for a channel: no paint-on or roll-up cue is being written onto its screen.
fn is_settled(cues: &[Cue], channel: Chan, frame: u32) -> bool {
    for cue in cues {
        let is_written = !is_pop(cue.kind) && cue.load <= frame && frame < cue.show;
        if is_on(channel, cue.kind) && is_written {
            return false;
        }
    }
    true
}

/// Whether no frame was lost before this one, or a cue with its SHOW by now resynchronises the channel after the last that was. Such a
/// cue's LOAD comes later, and it doesn't continue the cue before it.
fn is_channel_in_step(cues: &[Cue], channel: Chan, lost: Option<u32>, frame: u32) -> bool {
    let Some(lost) = lost else {
        return true;
    };
    for (number, cue) in cues.iter().enumerate() {
        let is_later = lost < cue.load && cue.show <= frame;
        if is_on(channel, cue.kind) && is_later && !goes_on(cues, channel, number) {
            return true;
        }
    }
    false
}

/// The same of a service: the cue's LOAD comes later, and each cue of the service before it has its HIDE by the cue's SHOW.
fn is_service_in_step(cues: &[Cue], service: u8, lost: Option<u32>, frame: u32) -> bool {
    let Some(lost) = lost else {
        return true;
    };
    let mut hidden = 0;
    for cue in cues {
        if !is_of(cue, service) {
            continue;
        }
        if lost < cue.load && hidden <= cue.show && cue.show <= frame {
            return true;
        }
        hidden = hidden.max(cue.hide.unwrap_or(0));
    }
    false
}

/// Whether a cue is one of a service.
fn is_of(cue: &Cue, service: u8) -> bool {
    matches!(cue.kind, Kind::Win(window) if window.service == service)
}

/// Whether a cue is shown in a window at a frame.
fn is_in(cue: &Cue, service: u8, id: u8, frame: u32) -> bool {
    let is_shown = cue.show <= frame && !is_past(cue, frame);
    is_shown
        && matches!(cue.kind, Kind::Win(window) if window.service == service && window.id == id)
}

/// The cue that a window is to show at a frame, if it is to show one.
fn cue_in(list: &CueList, service: u8, id: u8, frame: u32) -> Option<&Cue>
    ensures { IsFormedCue result }
{
    for cue in list.cues() {
        if is_in(cue, service, id, frame) {
            return Some(cue);
        }
    }
    None
}

/// Whether a channel shows what is to stand in a row.
fn shows_line(
    concealer: &Concealer,
    cues: &[Cue],
    channel: Chan,
    row: u8,
    line: Option<Line>,
) -> bool
    requires from { 1 ≤ row }
    requires to { row ≤ 15 }
{
    for column in 0..32u8 {
        if concealer.cell(channel, row, column) != cell_at(cues, line, column) {
            return false;
        }
    }
    true
}

/// Whether a channel shows the authored grid of a frame.
fn shows_grid(concealer: &Concealer, cues: &[Cue], channel: Chan, frame: u32) -> bool {
    for row in 1..16u8 {
        let line = line_of(cues, channel, frame, row);
        if !shows_line(concealer, cues, channel, row, line) {
            return false;
        }
    }
    true
}

/// Whether a service shows the authored windows of a frame.
fn shows_windows(concealer: &Concealer, list: &CueList, service: u8, frame: u32) -> bool
    requires { IsService service }
{
    for id in 0..8u8 {
        if window_differs(
            concealer.window(service, id),
            cue_in(list, service, id, frame),
        ) {
            return false;
        }
    }
    true
}

/// A list, and its words.
#[derive(Clone, Copy)]
struct Sent<'a> {
    list: &'a CueList,
    words: &'a [u8],
}

/// Judges the channels that are in step at a frame, after the last one that is lost before it, and the others of their fields, which
/// carry nothing. It gives how many are in step after a loss; None if one shows something else.
fn judge_channels(
    concealer: &Concealer,
    cues: &[Cue],
    lost: Option<u32>,
    frame: u32,
) -> Option<u32> {
    let mut judged = 0u32;
    for (channel, other) in [(Chan::Cc1, Chan::Cc2), (Chan::Cc3, Chan::Cc4)] {
        if is_settled(cues, channel, frame) && is_channel_in_step(cues, channel, lost, frame) {
            let is_shown = shows_grid(concealer, cues, channel, frame);
            let is_blank = shows_grid(concealer, cues, other, frame);
            if !(is_shown && is_blank) {
                return None;
            }
            judged = judged.saturating_add(u32::from(lost.is_some()));
        }
    }
    Some(judged)
}

/// Judges the services that are in step: how many are, after a loss; None if one shows something else.
fn judge_services(
    concealer: &Concealer,
    list: &CueList,
    lost: Option<u32>,
    frame: u32,
) -> Option<u32> {
    let mut judged = 0u32;
    for service in 1..7u8 {
        if is_service_in_step(list.cues(), service, lost, frame) {
            if !shows_windows(concealer, list, service, frame) {
                return None;
            }
            judged = judged.saturating_add(u32::from(lost.is_some()));
        }
    }
    Some(judged)
}

/// Takes the packet of a frame.
fn take(concealer: &mut Concealer, packet: &[u8])
    requires { (before : List ℕ) × HasConcealed before concealer.old }
    ensures { (after : List ℕ) × HasConcealed after concealer.new }
{
    if concealer.frames() < u32::MAX {
        let _ = concealer.feed(packet);
    }
}

/// Takes the packet of a frame that isn't lost itself, and judges what is in step after it.
fn judge_frame(
    concealer: &mut Concealer,
    list: &CueList,
    packet: &[u8],
    lost: Option<u32>,
    frame: u32,
) -> Option<u32>
    requires { (before : List ℕ) × HasConcealed before concealer.old }
    ensures { (after : List ℕ) × HasConcealed after concealer.new }
{
    if lost == Some(frame) {
        return Some(0);
    }
    take(concealer, packet);
    let channels = judge_channels(concealer, list.cues(), lost, frame)?;
    let services = judge_services(concealer, list, lost, frame)?;
    Some(channels.saturating_add(services))
}

/// Judges each frame that comes if those from one up to another are lost: how many channels and services are in step after the loss,
/// of all frames; None if one shows something else.
fn judge(alloc: Global, sent: Sent<'_>, from: u32, to: u32) -> Result<Option<u32>, AllocError> {
    let mut concealer = Concealer::new(alloc)?;
    let mut judged = 0u32;
    let size = sent.words.len() / (sent.list.frames() as usize).max(1);
    let mut frame = 0u32;
    for packet in sent.words.chunks(size.max(1)) {
        let lost = last_lost(from, to, frame);
        let Some(more) = judge_frame(&mut concealer, sent.list, packet, lost, frame) else {
            return Ok(None);
        };
        judged = judged.saturating_add(more);
        frame = frame.saturating_add(1);
    }
    Ok(Some(judged))
}

/// The last frame up to one, of those from one up to another.
fn last_lost(from: u32, to: u32, frame: u32) -> Option<u32> {
    if from < to && from <= frame {
        Some(frame.min(to - 1))
    } else {
        None
    }
}

/// Judges the words of a list of which a frame is lost, that and the next one, and all up to that.
fn judge_losses(alloc: Global, sent: Sent<'_>, frame: u32) -> Result<Option<u32>, AllocError> {
    let next = frame.saturating_add(1);
    let mut judged = 0u32;
    for (from, to) in [(frame, next), (frame, frame.saturating_add(2)), (0, next)] {
        let Some(more) = judge(alloc, sent, from, to)? else {
            return Ok(None);
        };
        judged = judged.saturating_add(more);
    }
    Ok(Some(judged))
}

/// Judges the words of a list of which none is lost, and each frame in turn, with the next one and with all before it. It gives how many
/// channels and services are in step after a loss, of all frames of all these; None if one shows something else.
fn judge_sent(alloc: Global, sent: Sent<'_>) -> Result<Option<u32>, AllocError> {
    let Some(mut judged) = judge(alloc, sent, 0, 0)? else {
        return Ok(None);
    };
    for frame in 0..sent.list.frames() {
        let Some(more) = judge_losses(alloc, sent, frame)? else {
            return Ok(None);
        };
        judged = judged.saturating_add(more);
    }
    Ok(Some(judged))
}

/// Judges a good list of a text of at most 1,000 bytes.
fn judge_all(alloc: Global, text: &str) -> Result<Option<u32>, AllocError> {
    if text.len() > 1000 {
        return Ok(None);
    }
    let Ok(list) = parse(alloc, text.as_bytes()) else {
        return Ok(None);
    };
    let built = run_to_end(alloc, given_of(&["build"], text.as_bytes()))?;
    if check(&list).is_err() || built.status != Status::Ok {
        return Ok(None);
    }
    let sent = Sent {
        list: &list,
        words: built.out.bytes(),
    };
    judge_sent(alloc, sent)
}

/// Pop-on and paint-on captions of CC1.
const POP_AND_PAINT: &str =
    "ccsuite,1,29.97,120\npop,CC1,0,10,30\nrun,15,4,white,HELLO\npop,CC1,12,30,50\nrun,14,0,green,BYE\nrun,15,2,white,NOW\npaint,CC1,52,70,90\nrun,15,0,white,PAINTED\npop,CC1,75,90,110\nrun,1,0,cyan-u,END\n";

#[test]
fn pop_on_and_paint_on_captions_are_seen_again_after_a_loss(rt: HostRuntime) -> Result<(), Fail> {
    assert!(rt; judge_all(rt.alloc(), POP_AND_PAINT)? == Some(10590));
    Ok(())
}

/// Roll-up captions of CC3, of three rows and then of two, and a pop-on caption that takes their place.
const ROLL_UP: &str =
    "ccsuite,1,30,150\nroll,CC3,3,0,12,\nrun,15,0,white,ONE\nroll,CC3,3,14,26,\nrun,15,0,white,TWO\nroll,CC3,3,26,40,\nrun,15,4,white-i,THREE\nroll,CC3,3,42,56,70\nrun,15,0,white,FOUR\nroll,CC3,2,74,90,\nrun,14,0,yellow,FIVE\nroll,CC3,2,92,104,118\nrun,14,0,white,SIX\npop,CC3,106,118,140\nrun,8,0,white,SEVEN\n";

#[test]
fn roll_up_captions_are_seen_again_after_a_loss(rt: HostRuntime) -> Result<(), Fail> {
    assert!(rt; judge_all(rt.alloc(), ROLL_UP)? == Some(13680));
    Ok(())
}

/// Windows of two services, with delays, some loaded while others are shown.
const WINDOWS: &str =
    "ccsuite,2,29.97,120\nshare,1,20\nshare,2,12\nwin,1,0,0,20,40,5,0,60,50,1,10,0,1,1\nrun,0,0,plain,HELLO\nwin,1,1,21,50,70,3,7,70,105,2,12,0,2,1\nattr,2,0,3,0,0,0,0,2002,3,330\nrun,0,0,plain-u,TWO ROWS\nrun,1,1,plain-i,HERE\ncolour,0330,3000,000\nwin,1,2,22,55,75,0,0,6,10,1,8,2,1,3\nrun,0,0,plain,TOP\nwin,1,0,76,95,110,4,0,60,50,1,10,0,1,1\nrun,0,0,plain,AGAIN\nwin,2,3,0,30,60,5,0,10,10,1,8,0,1,1\nrun,0,0,plain,UNO\nwin,2,4,58,90,115,0,0,20,10,1,8,0,2,1\nrun,0,0,plain,DOS\n";

#[test]
fn windows_with_delays_are_seen_again_after_a_loss(rt: HostRuntime) -> Result<(), Fail> {
    assert!(rt; judge_all(rt.alloc(), WINDOWS)? == Some(13655));
    Ok(())
}

/// Captions of both fields and windows at twice the rate.
const DOUBLE_RATE: &str =
    "ccsuite,1,59.94,150\nshare,1,16\npop,CC1,0,20,44\nrun,15,0,white,HI\nroll,CC3,2,1,27,\nrun,15,0,white,UP\nroll,CC3,2,29,55,81\nrun,15,0,white,ON\nwin,1,0,0,40,70,3,0,60,50,1,10,0,1,1\nrun,0,0,plain,HELLO\npop,CC1,22,44,60\nrun,14,0,white,BY\npaint,CC1,64,90,120\nrun,13,0,green,PAINT\nwin,1,1,71,100,130,2,0,60,50,1,10,0,1,1\nrun,0,0,plain,AGAIN\npaint,CC3,85,111,131\nrun,15,0,white,LAST\n";

#[test]
fn captions_at_twice_the_rate_are_seen_again_after_a_loss(rt: HostRuntime) -> Result<(), Fail> {
    assert!(rt; judge_all(rt.alloc(), DOUBLE_RATE)? == Some(33330));
    Ok(())
}

/// Captions of each kind, in both fields and in two services, loaded side by side.
const ALL_KINDS: &str =
    "ccsuite,1,29.97,130\nshare,1,15\nshare,6,8\npaint,CC1,0,16,36\nrun,15,0,white,PAINT\npop,CC3,0,12,34\nrun,15,0,red,POP\nwin,1,0,0,25,50,4,0,60,50,1,10,0,1,1\nrun,0,0,plain,ONE\nwin,1,1,2,35,60,0,0,70,50,1,10,0,1,1\nrun,0,0,plain,TWO\nwin,6,7,0,45,70,10,0,20,20,1,8,0,1,1\nrun,0,0,plain,SIX\nroll,CC1,4,38,52,\nrun,15,0,white,ROLL\nroll,CC1,4,54,66,\nrun,15,0,white,UP\npop,CC3,14,34,60\nrun,14,0,white-u,NEXT\nwin,1,2,62,85,110,6,0,60,50,1,10,0,1,1\nrun,0,0,plain,THREE\nwin,1,3,64,95,115,0,0,70,50,1,10,0,1,1\nrun,0,0,plain,FOUR\nwin,6,7,71,90,120,0,0,20,20,1,8,0,1,1\nrun,0,0,plain,SEIS\nroll,CC1,4,68,80,100\nrun,15,0,white,DOWN\npaint,CC3,70,88,118\nrun,15,0,white,LAST\npop,CC1,84,100,124\nrun,15,0,white,END\n";

#[test]
fn captions_of_all_kinds_are_seen_again_after_a_loss(rt: HostRuntime) -> Result<(), Fail> {
    assert!(rt; judge_all(rt.alloc(), ALL_KINDS)? == Some(37301));
    Ok(())
}
