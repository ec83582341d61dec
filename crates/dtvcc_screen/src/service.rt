use crate::clock::Clock;
use crate::cores::Core;
use cc_base::Rate;
use dtvcc_windows::Window;
use std::alloc::{AllocError, Global};

/// The receiver of one service of DTVCC (CTA-708-E): its windows, and what a delay holds, frame by frame.
#[derive(Drop)]
pub struct Service {
    core: Core,
    clock: Clock,
}

impl Service {
    ghost use Rattle.std.specs.Prelude.{◌≡◌, ◌==◌, ◌+◌, ◌-◌, ◌<◌, ◌≤◌, ◌^◌, ℕ, List, [], ◌∷◌, ◌++◌, length, None, IfOk, IfSome, IsTrue, MatchOption};
    ghost use Rattle.dtvcc_windows.specs.Objects.{is_live, window_of};
    ghost use Rattle.dtvcc_screen.specs.Cores.{fill};
    ghost use Rattle.dtvcc_screen.specs.Meaning.{Event, Byte, Reset, Tick, served_after, start};
    ghost use Rattle.dtvcc_screen.specs.Objects.{Leads, service_ticks};

    /// A service before its first frame. All memory that it ever takes is taken here.
    pub fn new(alloc: Global) -> Result<Service, AllocError>
        ensures leads { IfOk result (Leads []) }
        ensures frames { IfOk result (λ service. service_ticks service ≡ 0) }
    {
        Ok(Service {
            core: Core::new(alloc)?,
            clock: Clock {
                ticks: 0,
                rate: Rate::F2997,
            },
        })
    }

    /// The next frame begins, of a rate: a delay that ends in it ends (CTA-708-E, Delay).
    pub fn tick(&mut self, rate: Rate)
        requires { service_ticks self.old < 2 ^ 32 - 1 }
        ensures leads { (events : List Event) → Leads events self.old
            → Leads (events ++ Tick rate ∷ []) self.new }
        ensures frames { service_ticks self.new ≡ service_ticks self.old + 1 }
    {
        self.clock = Clock {
            ticks: self.clock.ticks + 1,
            rate,
        };
        self.core.tick(self.clock);
    }

    /// Takes the next byte of the present frame, and says whether it brought the held bytes to 128, which ends the delay.
    pub fn byte(&mut self, byte: u8) -> bool
        requires some_frame { 1 ≤ service_ticks self.old }
        requires frames { service_ticks self.old < 2 ^ 32 }
        ensures leads { (events : List Event) → Leads events self.old
            → Leads (events ++ Byte byte ∷ []) self.new }
        ensures full { (events : List Event) → Leads events self.old
            → result ≡ (fill byte (served_after start events).core == 128) }
        ensures frames { service_ticks self.new ≡ service_ticks self.old }
    {
        self.core.byte(self.clock, byte)
    }

    /// Resets the service (CTA-708-E, Reset); the frames and the rate stay.
    pub fn reset(&mut self)
        ensures leads { (events : List Event) → Leads events self.old
            → Leads (events ++ Reset ∷ []) self.new }
        ensures frames { service_ticks self.new ≡ service_ticks self.old }
    {
        self.core.reset();
    }

    /// The number of held bytes, at most 127.
    pub fn held(&self) -> u8
        ensures held { (events : List Event) → Leads events self.now
            → result ≡ length (served_after start events).core.held }
        ensures most { result ≤ 127 }
    {
        self.core.held()
    }

    /// The window of an id below 8, where there is one.
    pub fn window(&self, id: u8) -> Option<&Window>
        ensures window { (events : List Event) → Leads events self.now
            → let windows = (served_after start events).core.screen.windows in
            MatchOption result (windows id ≡ None) (λ window. window_of window.now ≡ windows id) }
        ensures live { IfSome result (λ window. IsTrue (is_live window.now)) }
    {
        self.core.window(id)
    }
}
