ghost use Rattle.std.specs.Prelude.{◌≡◌, ◌≢◌, ◌<◌, ◌≤◌, ◌+◌, ◌++◌, ◌∷◌, [], false, true, None, ℕ, List, All};
ghost use Rattle.cue_lists.specs.AuthoredServiceGrid.{authored_windows};
ghost use Rattle.cc_receiver.specs.ReceivedServices.{received_windows};
ghost use Rattle.cc_receiver.specs.Receivers.{HasReceived, frame_count};
ghost use Rattle.cdp_packets.specs.Packets.{Frame};
ghost use Rattle.cue_types.specs.Cues.{IsCueFormed};
ghost use Rattle.dtvcc_services.specs.Numbers.{IsService};
ghost use Rattle.cc_verifier.specs.WindowCursors.{AreAt};
ghost use Rattle.cc_verifier.specs.WindowPlaces.{IsAuthoredBy};
ghost use Rattle.cc_verifier.specs.WindowSeen.{IsFormedCue};
ghost use Rattle.cc_verifier.specs.WindowTurns.{AreAllInTurn};
ghost use Rattle.words_files.specs.FramesOf.{AreFramesOf};
ghost use Rattle.cc_receiver.specs.CaptionChannel.{caption_channel};
ghost use Rattle.cc_verifier.specs.Differing.{AllSeenWindows, ShowsItsWindows, ShowsOtherWindow};
ghost use Rattle.cc_verifier.specs.Services.{IsFirstOtherService, KnowServices, StandAt};

use crate::{WindowCursors, window_differs};
use cc_receiver::Receiver;
use cue_types::{Cue, LAST_SERVICE};

/// The check of the 63 services of DTVCC, frame by frame: what their windows are to show, and whether all were last seen to show
/// that (CTA-708-E).
///
/// Windows are compared only in frames in which something that is seen may have changed, or what is to be seen.
#[derive(Clone, Copy, PartialEq, Eq)]
pub struct ServiceChecks {
    cursors: WindowCursors,
    // Whether all windows showed what is authored at the frame to come.
    agrees: bool,
}

impl ServiceChecks {
    /// The check before frame 0.
    pub fn new(cues: &[Cue]) -> ServiceChecks
        ensures at { StandAt cues.now 0 result }
        ensures knows { (former : AllSeenWindows) → KnowServices cues.now 0 former result }
    {
        ServiceChecks {
            cursors: WindowCursors::new(cues),
            agrees: false,
        }
    }

    /// The first service of which a window is seen at a frame, which ended last, otherwise than it is authored.
    pub fn find(&mut self, receiver: &Receiver, cues: &[Cue], frame: u32) -> Option<u8>
        requires some { 0 < frame_count receiver.now }
        requires turn { AreAllInTurn cues.now }
        requires formed { All IsCueFormed cues.now }
        requires at { StandAt cues.now frame self.now }
        ensures at { StandAt cues.now frame self.new }
        ensures first { (bytes : List ℕ) (earlier : List Frame) (last : Frame)
            → HasReceived bytes receiver.now
            → AreFramesOf caption_channel (earlier ++ last ∷ []) bytes
            → KnowServices cues.now frame (received_windows earlier) self.old
            → IsFirstOtherService cues.now frame (received_windows (earlier ++ last ∷ [])) result }
        ensures knows { (bytes : List ℕ) (earlier : List Frame) (last : Frame)
            → HasReceived bytes receiver.now
            → AreFramesOf caption_channel (earlier ++ last ∷ []) bytes
            → KnowServices cues.now frame (received_windows earlier) self.old
            → result ≡ None → KnowServices cues.now frame
            (received_windows (earlier ++ last ∷ [])) self.new }
    {
        if self.still_agrees(receiver) {
            return None;
        }
        self.agrees = false;
        let first = first_other(receiver, &self.cursors, cues, frame);
        self.agrees = first.is_none();
        first
    }

    /// Whether all windows still show what is authored, without a comparison.
    fn still_agrees(&self, receiver: &Receiver) -> bool
        requires { 0 < frame_count receiver.now }
        ensures agrees { result ≡ true → self.now.agrees ≡ true }
        ensures same { (bytes : List ℕ) (earlier : List Frame) (last : Frame)
            → HasReceived bytes receiver.now
            → AreFramesOf caption_channel (earlier ++ last ∷ []) bytes → result ≡ true
            → (service id : ℕ) → IsService service
            → received_windows (earlier ++ last ∷ []) service id
            ≡ received_windows earlier service id }
    {
        self.agrees && !receiver.is_touched()
    }

    /// Go on to the next frame, of this number.
    pub fn advance(&mut self, cues: &[Cue], frame: u32)
        requires turn { AreAllInTurn cues.now }
        requires formed { All IsCueFormed cues.now }
        requires at { (former : ℕ) × (frame ≡ former + 1) × StandAt cues.now former self.now }
        ensures at { StandAt cues.now frame self.new }
        ensures knows { (former : ℕ) (windows : AllSeenWindows) → frame ≡ former + 1
            → StandAt cues.now former self.old
            → KnowServices cues.now former windows self.old
            → KnowServices cues.now frame windows self.new }
    {
        if self.cursors.advance(cues, frame) {
            self.agrees = false;
        }
    }
}

/// The first service of which a window is seen otherwise than it is authored.
fn first_other(receiver: &Receiver, cursors: &WindowCursors, cues: &[Cue], frame: u32) -> Option<u8>
    requires turn { AreAllInTurn cues.now }
    requires formed { All IsCueFormed cues.now }
    requires at { AreAt cues.now frame cursors.now }
    ensures { (bytes : List ℕ) (frames : List Frame) → HasReceived bytes receiver.now
        → AreFramesOf caption_channel frames bytes
        → IsFirstOtherService cues.now frame (received_windows frames) result }
{
    for service in 1..64u8 {
        if has_other_window(receiver, cursors, cues, frame, service) {
            return Some(service);
        }
    }
    None
}

/// Whether a window of a service is seen otherwise than it is authored.
fn has_other_window(
    receiver: &Receiver,
    cursors: &WindowCursors,
    cues: &[Cue],
    frame: u32,
    service: u8,
) -> bool
    requires service { IsService service }
    requires turn { AreAllInTurn cues.now }
    requires formed { All IsCueFormed cues.now }
    requires at { AreAt cues.now frame cursors.now }
    ensures other { (bytes : List ℕ) (frames : List Frame) → HasReceived bytes receiver.now
        → AreFramesOf caption_channel frames bytes
        → result ≡ true → ShowsOtherWindow cues.now frame (received_windows frames) service }
    ensures same { (bytes : List ℕ) (frames : List Frame) → HasReceived bytes receiver.now
        → AreFramesOf caption_channel frames bytes
        → result ≡ false → ShowsItsWindows cues.now frame (received_windows frames) service }
{
    if LAST_SERVICE < service && !receiver.is_used(service) {
        return false;
    }
    for id in 0..8u8 {
        let cue = cue_of(cursors, cues, frame, service, id);
        if window_differs(receiver.window(service, id), cue) {
            return true;
        }
    }
    false
}

/// The cue that a window of a service, 1 to 63, is to show at a frame, if it is to show one.
fn cue_of<'a>(
    cursors: &WindowCursors,
    cues: &'a [Cue],
    frame: u32,
    service: u8,
    id: u8,
) -> Option<&'a Cue>
    requires service { IsService service }
    requires id { id < 8 }
    requires turn { AreAllInTurn cues.now }
    requires formed { All IsCueFormed cues.now }
    requires at { AreAt cues.now frame cursors.now }
    ensures authored { IsAuthoredBy cues.now frame service id result }
    ensures formed { IsFormedCue result }
{
    if service <= LAST_SERVICE {
        cursors.cue(cues, frame, service, id)
    } else {
        None
    }
}
