ghost use Rattle.std.specs.Prelude.{◌≡◌, ◌≤◌, ◌<◌, ◌^◌, ◌==◌, ℕ, Some, false, IfOk};
ghost use Rattle.dtvcc_screen.specs.Cores.{CoreState, after_byte, after_tick, clean, fill};
ghost use Rattle.dtvcc_screen.specs.Objects.{Stands, core_delay_end, screen_in};
ghost use Rattle.dtvcc_screen.specs.Shown.{LooksSame};

use dtvcc_screen::{Clock, Core};
use dtvcc_windows::Window;
use std::alloc::{AllocError, Global};

/// One of the services, and whether a byte came since it was new or reset.
#[derive(Drop)]
pub(crate) struct Member {
    pub(crate) core: Core,
    used: bool,
    pub ghost clean: { used ≡ false → Stands clean core },
}

/// What a service makes of a byte.
#[derive(Clone, Copy)]
pub(crate) struct Taken {
    /// The byte brought the held bytes to 128.
    pub(crate) full: bool,
    /// Something that is shown may have changed.
    pub(crate) seen: bool,
}

impl Member {
    ghost use Rattle.dtvcc_services.specs.Passing.{HasStepped};

    /// A service before its first byte.
    pub(crate) fn new(alloc: Global) -> Result<Member, AllocError>
        ensures { IfOk result (λ member. Stands clean member.core) }
    {
        Ok(Member {
            core: Core::new(alloc)?,
            used: false,
        })
    }

    /// Whether it may have a window: where it says no, no byte came since it was new or reset.
    pub(crate) fn is_used(&self) -> bool
        ensures { result ≡ false → Stands clean self.now.core }
    {
        self.used
    }

    /// A frame begins, which the clock counts already. Says whether something that is shown may have changed.
    pub(crate) fn tick(&mut self, clock: Clock) -> bool
        requires { clock.ticks < 2 ^ 32 }
        ensures stands { (state : CoreState) → Stands state self.old.core
            → Stands (after_tick clock state) self.new.core }
        ensures same { result ≡ false
            → LooksSame (screen_in self.old.core) (screen_in self.new.core) }
    {
        if !self.used {
            return false;
        }
        self.core.tick(clock);
        self.core.take_changed()
    }

    /// Takes the next byte.
    pub(crate) fn byte(&mut self, clock: Clock, byte: u8) -> Taken
        requires { clock.ticks < 2 ^ 32 }
        ensures stands { (state : CoreState) → Stands state self.old.core
            → Stands (after_byte byte clock state) self.new.core }
        ensures full { (state : CoreState) → Stands state self.old.core
            → result.full ≡ (fill byte state == 128) }
        ensures same { result.seen ≡ false
            → LooksSame (screen_in self.old.core) (screen_in self.new.core) }
    {
        self.used = true;
        let full = self.core.byte(clock, byte);
        let seen = self.core.take_changed();
        Taken { full, seen }
    }

    /// Resets the service. Says whether something that is shown may have changed.
    pub(crate) fn reset(&mut self) -> bool
        ensures clean { Stands clean self.new.core }
        ensures same { result ≡ false
            → LooksSame (screen_in self.old.core) (screen_in self.new.core) }
    {
        if !self.used {
            return false;
        }
        self.core.reset();
        let seen = self.core.take_changed();
        self.used = false;
        seen
    }
}
