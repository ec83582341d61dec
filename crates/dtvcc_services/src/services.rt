ghost use Rattle.std.specs.Prelude.{◌≡◌, vec_len};

use crate::members::Member;
use crate::passing::{earlier, either, is_service, lowest, pass, place, reset_all};
use cc_base::Rate;
use dtvcc_screen::Clock;
use dtvcc_windows::Window;
use std::alloc::{AllocError, Global};

/// How many services a caption channel has; they are 1 to 63 (CTA-708-E, caption channel services).
pub const SERVICES: usize = 63;

/// The receivers of all services of a caption channel, 1 to 63 (CTA-708-E), told of the frames by one clock.
#[derive(Drop)]
pub struct Services {
    members: Vec<Member>,
    clock: Clock,
    // No delay ends before this frame.
    next: u64,
    // Whether something that is shown may have changed in the present frame.
    touched: bool,
    // The lowest service of which a byte of the present frame brought the held bytes to 128.
    filled: Option<u8>,
    ghost count: { vec_len members ≡ 63 },
}

impl Services {
    ghost use Rattle.std.specs.Prelude.{◌+◌, ◌-◌, ◌==◌, ◌≤◌, ◌<◌, ◌^◌, ℕ, List, [], ◌∷◌, ◌++◌, if◌then◌else◌, length, false, None, IfOk, IfSome, IsTrue, MatchOption};
    ghost use Rattle.dtvcc_windows.specs.Objects.{is_live, window_of};
    ghost use Rattle.dtvcc_screen.specs.Meaning.{Byte, Reset, Tick};
    ghost use Rattle.dtvcc_screen.specs.Screens.{empty_screen};
    ghost use Rattle.dtvcc_screen.specs.Shown.{LooksSame};
    ghost use Rattle.dtvcc_services.specs.Filling.{is_filled};
    ghost use Rattle.dtvcc_services.specs.Numbers.{IsLowest, IsService};
    ghost use Rattle.dtvcc_services.specs.Objects.{Events, Leads, all_ticks, screen_at, served_now, service_behind};

    /// All services before their first frame. All memory that they ever take is taken here, and none of it written.
    pub fn new(alloc: Global) -> Result<Services, AllocError>
        ensures leads { IfOk result (Leads (λ service. []) (λ service. [])) }
        ensures frames { IfOk result (λ services. all_ticks services ≡ 0) }
    {
        let mut members = Vec::new(alloc);
        for _place in 0..SERVICES {
            members.push(Member::new(alloc)?)?;
        }
        Ok(Services {
            members,
            clock: Clock {
                ticks: 0,
                rate: Rate::F2997,
            },
            next: u64::MAX,
            touched: false,
            filled: None,
        })
    }

    /// The next frame begins, of a rate: delays that end in it end (CTA-708-E, Delay).
    pub fn tick(&mut self, rate: Rate)
        requires { all_ticks self.old < 2 ^ 32 - 1 }
        ensures leads { (before frame : Events) → Leads before frame self.old
            → Leads (λ service. before service ++ frame service)
            (λ service. Tick rate ∷ []) self.new }
        ensures frames { all_ticks self.new ≡ all_ticks self.old + 1 }
    {
        self.clock = Clock {
            ticks: self.clock.ticks + 1,
            rate,
        };
        let passed = pass(&mut self.members, self.next, self.clock);
        self.next = passed.next;
        self.touched = passed.seen;
        self.filled = None;
    }

    /// A service takes its next byte of the present frame. A byte of a service that isn't one of 1 to 63 changes nothing.
    pub fn byte(&mut self, service: u8, byte: u8)
        requires { all_ticks self.old < 2 ^ 32 }
        ensures leads { (before frame : Events) → Leads before frame self.old
            → Leads before (λ other. frame other
            ++ (if service == other then Byte byte ∷ [] else [])) self.new }
        ensures frames { all_ticks self.new ≡ all_ticks self.old }
    {
        if is_service(service) {
            self.take(service, byte);
        }
    }

    // One of the services takes a byte.
    fn take(&mut self, service: u8, byte: u8)
        requires service { IsService service }
        requires frames { all_ticks self.old < 2 ^ 32 }
        ensures leads { (before frame : Events) → Leads before frame self.old
            → Leads before (λ other. frame other
            ++ (if service == other then Byte byte ∷ [] else [])) self.new }
        ensures frames { all_ticks self.new ≡ all_ticks self.old }
    {
        let clock = self.clock;
        let member = &mut self.members[place(service)];
        let taken = member.byte(clock, byte);
        let end = member.core.until();
        self.next = earlier(self.next, end);
        self.touched = either(self.touched, taken.seen);
        self.filled = lowest(self.filled, service, taken.full);
    }

    /// Resets all services (CTA-708-E, Reset), as where a packet of the channel is missing; the frames and the rate stay.
    pub fn reset(&mut self)
        ensures leads { (before frame : Events) → Leads before frame self.old
            → Leads before (λ service. frame service ++ Reset ∷ []) self.new }
        ensures frames { all_ticks self.new ≡ all_ticks self.old }
    {
        let seen = reset_all(&mut self.members);
        self.next = u64::MAX;
        self.touched = either(self.touched, seen);
    }

    /// The number of frames that the services were told of.
    pub fn frames(&self) -> u64
        ensures { result ≡ all_ticks self.now }
    {
        self.clock.ticks
    }

    /// The window of an id below 8 of a service, where there is one.
    pub fn window(&self, service: u8, id: u8) -> Option<&Window>
        requires { IsService service }
        ensures window { (before frame : Events) → Leads before frame self.now
            → let windows = (screen_at (served_now before frame service)).windows in
            MatchOption result (windows id ≡ None) (λ window. window_of window.now ≡ windows id) }
        ensures live { IfSome result (λ window. IsTrue (is_live window.now)) }
    {
        let member = &self.members[place(service)];
        member.core.window(id)
    }

    /// The number of bytes that a service holds, at most 127.
    pub fn held(&self, service: u8) -> u8
        requires { IsService service }
        ensures held { (before frame : Events) → Leads before frame self.now
            → result ≡ length (served_now before frame service).core.held }
        ensures most { result ≤ 127 }
    {
        let member = &self.members[place(service)];
        member.core.held()
    }

    /// Whether a service may have a window: where it says no, no byte came to it since it was new or reset, and it has none.
    pub fn is_used(&self, service: u8) -> bool
        requires { IsService service }
        ensures { (before frame : Events) → Leads before frame self.now → result ≡ false
            → screen_at (served_now before frame service) ≡ empty_screen }
    {
        let member = &self.members[place(service)];
        member.is_used()
    }

    /// Whether something that is shown may have changed in the present frame: where it says no, all windows of all services are
    /// shown as they were before it.
    pub fn is_touched(&self) -> bool
        ensures { (before frame : Events) → Leads before frame self.now → result ≡ false
            → (service : ℕ) → IsService service
            → LooksSame (screen_at (service_behind before service))
            (screen_at (served_now before frame service)) }
    {
        self.touched
    }

    /// The lowest service of which a byte of the present frame brought the held bytes to 128, which ended its delay.
    pub fn filled(&self) -> Option<u8>
        ensures { (before frame : Events) → Leads before frame self.now
            → IsLowest (λ service. is_filled (service_behind before service)
            (frame service)) result }
    {
        self.filled
    }
}
