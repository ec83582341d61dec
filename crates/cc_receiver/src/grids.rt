ghost use Rattle.std.specs.Prelude.{◌≡◌, ◌<◌, ℕ, false, None, Option, IfSome, IsTrue, MatchOption};
ghost use Rattle.dtvcc_services.specs.Numbers.{IsService};
ghost use Rattle.dtvcc_windows.specs.Objects.{is_live, window_of};
ghost use Rattle.dtvcc_windows.specs.Showing.{ShownWindow, shown};
ghost use Rattle.line21_codes.specs.declared.channels.Chan.{Chan as Channel};
ghost use Rattle.line21_screen.specs.Grid.{Grid};
ghost use Rattle.line21_screen.specs.Objects.{grid_in};

use crate::receiver::Receiver;
use dtvcc_windows::Window;
use line21_codes::Chan;
use line21_screen::Memory;

/// What shows the grids of line 21's caption channels CC1 to CC4 and the windows of the services 1 to 63 of DTVCC (CTA-608-E; 47 CFR
/// 79.101; CTA-708-E).
pub trait Grids {
    /// The displayed cells of each channel.
    ghost grids: { Self → Channel → Grid };

    /// This is what is seen of the windows, by the service and the window's id.
    ghost shows: { Self → (ℕ → ℕ → Option ShownWindow) → Type 0 };

    /// The displayed memory of a channel (CTA-608-E; 47 CFR 79.101).
    fn displayed(&self, chan: Chan) -> &Memory
        ensures { grid_in result.now ≡ grids self.now chan };

    /// The window of an id of a service, 1 to 63, where there is one (CTA-708-E).
    fn window(&self, service: u8, id: u8) -> Option<&Window>
        requires { IsService service }
        ensures seen { (seen : ℕ → ℕ → Option ShownWindow) → shows self.now seen
            → MatchOption result (seen service id ≡ None)
            (λ window. seen service id ≡ shown (window_of window.now)) }
        ensures live { IfSome result (λ window. IsTrue (is_live window.now)) };

    /// Whether a service, 1 to 63, may have a window: where it says no, it has none (CTA-708-E).
    fn is_used(&self, service: u8) -> bool
        requires { IsService service }
        ensures { (seen : ℕ → ℕ → Option ShownWindow) → shows self.now seen → result ≡ false
            → (id : ℕ) → seen service id ≡ None };
}

/// What shows grids frame by frame, and tells whether the last frame touched what is seen of the services (CTA-708-E).
pub trait Touched {
    /// There was a frame.
    ghost has_frame: { Self → Type 0 };

    /// What was seen of the windows before the last frame, and what is seen of them after it, by the service and the window's id.
    ghost turned: { Self → (ℕ → ℕ → Option ShownWindow) → (ℕ → ℕ → Option ShownWindow) → Type 0 };

    /// Whether something that is seen of a service may have changed in the last frame: where it says no, all windows of all services
    /// are seen as they were before it (CTA-708-E).
    fn is_touched(&self) -> bool
        requires { has_frame self.now }
        ensures { (was seen : ℕ → ℕ → Option ShownWindow) → turned self.now was seen
            → result ≡ false → (service id : ℕ)
            → IsService service → seen service id ≡ was service id };
}

impl Grids for Receiver {
    ghost use Rattle.cc_receiver.specs.Receivers.{displayed_grid};
    ghost use Rattle.cc_receiver.specs.ReceiverGrids.{ShowsWindows};

    ghost grids = { displayed_grid };

    ghost shows = { ShowsWindows };

    fn displayed(&self, chan: Chan) -> &Memory {
        Receiver::displayed(self, chan)
    }

    fn window(&self, service: u8, id: u8) -> Option<&Window> {
        Receiver::window(self, service, id)
    }

    fn is_used(&self, service: u8) -> bool {
        Receiver::is_used(self, service)
    }
}

impl Touched for Receiver {
    ghost use Rattle.cc_receiver.specs.Receivers.{frame_count};
    ghost use Rattle.cc_receiver.specs.ReceiverGrids.{TurnedWindows};

    ghost has_frame = { λ receiver. 0 < frame_count receiver };

    ghost turned = { TurnedWindows };

    fn is_touched(&self) -> bool {
        Receiver::is_touched(self)
    }
}
