ghost use Rattle.std.specs.Prelude.{◌≡◌, ◌<◌, ◌≤◌, ◌+◌, ◌/◌, ◌%◌, ◌==◌, ◌&&◌, false, true, ℕ, All, IfSome, length, slice_get};
ghost use Rattle.cue_types.specs.Channels.{uses_window};
ghost use Rattle.cue_lists.specs.AuthoredServiceGrid.{is_before};
ghost use Rattle.cc_verifier.specs.WindowCursors.{AreAt, HavePassed};
ghost use Rattle.cc_verifier.specs.WindowPlaces.{HasPassed, IsAuthoredBy, IsWindowId, IsQuiet, SameWindows, StandsAtPlace};
ghost use Rattle.cue_types.specs.Cues.{IsCueFormed};
ghost use Rattle.cc_verifier.specs.WindowSeen.{IsFormedCue};
ghost use Rattle.cc_verifier.specs.WindowTurns.{AreAllInTurn};

use cue_types::{Cue, Kind};

/// The windows of services 1 to 6, 8 each.
const WINDOWS: usize = 48;

/// Where the windows of a list's services stand in its cues at a frame: each at the first of its cues whose HIDE is to come.
#[derive(Clone, Copy, PartialEq, Eq)]
pub struct WindowCursors {
    // For each window the number of that cue, counted from 0, or how many cues there are.
    places: [usize; WINDOWS],
    // The next frame at which what a window is to show may change.
    due: u32,
}

impl WindowCursors {
    /// The cursors at frame 0.
    pub fn new(cues: &[Cue]) -> WindowCursors
        ensures { AreAt cues.now 0 result }
    {
        let mut cursors = WindowCursors {
            places: [0; WINDOWS],
            due: 0,
        };
        cursors.pass(cues, 0);
        cursors
    }

    /// Goes on to the next frame, of this number, and says whether what the windows are to show may have changed.
    pub fn advance(&mut self, cues: &[Cue], frame: u32) -> bool
        requires { (former : ℕ) × (frame ≡ former + 1) × AreAt cues.now former self.now }
        ensures at { AreAt cues.now frame self.new }
        ensures same { (former : ℕ) → AreAllInTurn cues.now → frame ≡ former + 1
            → AreAt cues.now former self.old → result ≡ false
            → SameWindows cues.now former frame }
    {
        if frame < self.due {
            return false;
        }
        self.pass(cues, frame);
        true
    }

    /// Passes the cues of each window whose HIDE has come at a frame.
    fn pass(&mut self, cues: &[Cue], frame: u32)
        requires { HavePassed cues.now frame self.old }
        ensures { AreAt cues.now frame self.new }
    {
        self.due = u32::MAX;
        for place in 0..WINDOWS {
            let service = (place / 8) as u8 + 1;
            let id = (place % 8) as u8;
            let next = pass_over(cues, service, id, frame, self.places[place]);
            self.places[place] = next;
            self.due = self.due.min(next_change(cues.get(next), frame));
        }
    }

    /// The cue that a window, 0 to 7, of a service, 1 to 6, is to show at a frame, if it is to show one.
    pub fn cue<'a>(&self, cues: &'a [Cue], frame: u32, service: u8, id: u8) -> Option<&'a Cue>
        requires window { IsWindowId service id }
        requires turn { AreAllInTurn cues.now }
        requires at { AreAt cues.now frame self.now }
        ensures authored { IsAuthoredBy cues.now frame service id result }
        ensures formed { All IsCueFormed cues.now → IsFormedCue result }
    {
        let place = usize::from(service - 1) * 8 + usize::from(id);
        match cues.get(self.places[place]) {
            Some(cue) if cue.show <= frame => Some(cue),
            _ => None,
        }
    }
}

/// The first cue of a window, from the cue of a number on, whose HIDE is to come at a frame.
fn pass_over(cues: &[Cue], service: u8, id: u8, frame: u32, from: usize) -> usize
    requires { HasPassed service id cues.now frame from }
    ensures { StandsAtPlace service id cues.now frame result }
{
    let mut next = from;
    while next < cues.len() {
        if is_to_hide(&cues[next], service, id, frame) {
            return next;
        }
        next += 1;
    }
    next
}

/// A cue has a window, and its HIDE is to come at a frame.
fn is_to_hide(cue: &Cue, service: u8, id: u8, frame: u32) -> bool
    ensures { result ≡ (uses_window service id cue.now.kind && is_before frame cue.now.hide) }
{
    uses_window(cue.kind, service, id) && is_before(frame, cue.hide)
}

/// A cue of the kind has this window of the service.
fn uses_window(kind: Kind, service: u8, id: u8) -> bool
    ensures { result ≡ uses_window service id kind }
{
    match kind {
        Kind::Win(window) => service == window.service && id == window.id,
        Kind::Pop(_) | Kind::Paint(_) | Kind::Roll(_, _) => false,
    }
}

/// The frame is before the HIDE.
fn is_before(frame: u32, hide: Option<u32>) -> bool
    ensures { result ≡ is_before frame hide }
{
    match hide {
        Some(hide) => frame < hide,
        None => true,
    }
}

/// The next frame at which a cue is shown or hidden, where there is one.
fn next_change(cue: Option<&Cue>, frame: u32) -> u32
    ensures { IfSome cue.entry (λ cue. IsQuiet frame result cue.now) }
{
    match cue {
        Some(cue) => {
            let hide = cue.hide.unwrap_or(u32::MAX);
            if frame < cue.show {
                hide.min(cue.show)
            } else {
                hide
            }
        }
        None => u32::MAX,
    }
}
