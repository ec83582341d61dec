ghost use Rattle.std.specs.Prelude.{◌≡◌, ◌≢◌, ◌<◌, ◌++◌, ◌∷◌, [], ℕ, List, Option, None, true, false, MatchOption};
ghost use Rattle.cc_receiver.specs.ReceivedServices.{received_windows};
ghost use Rattle.cc_receiver.specs.Receivers.{HasReceived, frame_count};
ghost use Rattle.cdp_packets.specs.Packets.{Frame};
ghost use Rattle.dtvcc_services.specs.Numbers.{IsService};
ghost use Rattle.dtvcc_windows.specs.Objects.{window_of};
ghost use Rattle.dtvcc_windows.specs.Showing.{ShownWindow, shown};
ghost use Rattle.rate_convert.specs.Differing.{Differ, IsFirstDiffering, LookAlike};
ghost use Rattle.rate_convert.specs.ServedFrames.{AreServed};
ghost use Rattle.services_files.specs.CaptionChannel.{caption_channel};
ghost use Rattle.words_files.specs.FramesOf.{AreFramesOf};

use cc_receiver::{Receiver, Served};
use dtvcc_windows::Window;

// Whether something else is seen of a window than of another, where there are these.
fn window_differs(window: Option<&Window>, other: Option<&Window>) -> bool
    ensures same { (seen others : Option ShownWindow)
        → MatchOption window.entry (seen ≡ None) (λ w. seen ≡ shown (window_of w.now))
        → MatchOption other.entry (others ≡ None) (λ w. others ≡ shown (window_of w.now))
        → result ≡ false → others ≡ seen }
    ensures different { (seen others : Option ShownWindow)
        → MatchOption window.entry (seen ≡ None) (λ w. seen ≡ shown (window_of w.now))
        → MatchOption other.entry (others ≡ None) (λ w. others ≡ shown (window_of w.now))
        → result ≡ true → others ≢ seen }
{
    match (window, other) {
        (Some(window), Some(other)) => window.differs(other),
        (Some(window), None) => window.is_shown(),
        (None, Some(other)) => other.is_shown(),
        (None, None) => false,
    }
}

// Whether something else is seen of a service of a receiver than of services that took other frames.
fn service_differs(input: &Receiver, output: &Served, service: u8) -> bool
    requires { IsService service }
    ensures same { (bytes : List ℕ) (frames others : List Frame) → HasReceived bytes input.now
        → AreFramesOf caption_channel frames bytes
        → AreServed others output.now → result ≡ false
        → LookAlike (received_windows frames) (received_windows others) service }
    ensures different { (bytes : List ℕ) (frames others : List Frame) → HasReceived bytes input.now
        → AreFramesOf caption_channel frames bytes
        → AreServed others output.now → result ≡ true
        → Differ (received_windows frames) (received_windows others) service }
{
    if !input.is_used(service) && !output.is_used(service) {
        return false;
    }
    for id in 0..8 {
        if window_differs(input.window(service, id), output.window(service, id)) {
            return true;
        }
    }
    false
}

// The first service, 1 to 63, of which something else is seen at a receiver than at services that took other frames, if there is one.
fn first_differing(input: &Receiver, output: &Served) -> Option<u8>
    ensures { (bytes : List ℕ) (frames others : List Frame) → HasReceived bytes input.now
        → AreFramesOf caption_channel frames bytes
        → AreServed others output.now
        → IsFirstDiffering (received_windows frames) (received_windows others) result }
{
    for service in 1..64 {
        if service_differs(input, output, service) {
            return Some(service);
        }
    }
    None
}

/// The first service, 1 to 63, of which something else is seen at a receiver than at services that took other frames, if there is one.
/// Before the last frame the same was seen of all; `touched` says whether these may have changed (CTA-708-E).
pub(crate) fn first_changed(input: &Receiver, output: &Served, touched: bool) -> Option<u8>
    requires { 0 < frame_count input.now }
    ensures { (bytes : List ℕ) (earlier before others : List Frame) (last : Frame)
        → HasReceived bytes input.now
        → AreFramesOf caption_channel (earlier ++ last ∷ []) bytes → AreServed others output.now
        → ((service : ℕ) → IsService service
        → LookAlike (received_windows earlier) (received_windows before) service)
        → (touched ≡ false → (service id : ℕ) → IsService service
        → received_windows others service id ≡ received_windows before service id)
        → IsFirstDiffering (received_windows (earlier ++ last ∷ []))
        (received_windows others) result }
{
    let moved = touched | input.is_touched();
    if moved {
        first_differing(input, output)
    } else {
        None
    }
}
