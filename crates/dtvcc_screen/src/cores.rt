ghost use Rattle.std.specs.Prelude.{◌<◌, length};

use crate::clock::Clock;
use crate::held::{FULL, hold, is_cancel, is_due, is_reset, tenths_of};
use crate::screen::Screen;
use arrayvec::ArrayVec;
use dtvcc_codes::{Command, OpenCommand};
use dtvcc_windows::Window;
use std::alloc::{AllocError, Global};
use std::mem;

/// A service without a clock of its own: its windows, and what a delay holds (CTA-708-E). Each call is given what all services
/// know of the frames.
#[derive(Drop)]
pub struct Core {
    screen: Screen,
    reader: OpenCommand,
    // In a delay, the frame that ends it.
    until: Option<u64>,
    // In a delay, the bytes that came.
    held: ArrayVec<u8, FULL>,
    // Whether something that is shown may have changed since it was last asked.
    changed: bool,
    ghost room: { length held.items < 128 },
}

impl Core {
    ghost use Rattle.std.specs.Prelude.{◌≡◌, ◌==◌, ◌+◌, ◌≤◌, ◌^◌, ◌++◌, ℕ, [], ◌∷◌, true, false, Some, None, IfOk, IfSome, IsTrue, MatchOption};
    ghost use Rattle.cc_base.specs.Steps.{front_from};
    ghost use Rattle.dtvcc_codes.specs.Reading.{completed, completions, open_after};
    ghost use Rattle.dtvcc_codes.specs.Spellable.{IsSpellable};
    ghost use Rattle.dtvcc_windows.specs.Objects.{is_live, window_of};
    ghost use Rattle.dtvcc_screen.specs.Commands.{on_screen};
    ghost use Rattle.dtvcc_screen.specs.Cores.{CoreState, after_byte, after_tick, all_acted, clean, fill, released, tenths_of, until_of};
    ghost use Rattle.dtvcc_screen.specs.Objects.{Carries, Notes, Stands, acting_on, core_delay_end, has_changed, screen_in, screen_of};

    /// A service before its first byte. All memory that it ever takes is taken here.
    pub fn new(alloc: Global) -> Result<Core, AllocError>
        ensures clean { IfOk result (Stands clean) }
        ensures asked { IfOk result (λ core. has_changed core ≡ false) }
    {
        Ok(Core {
            screen: Screen::new(alloc)?,
            reader: OpenCommand::new(),
            until: None,
            held: ArrayVec::new(),
            changed: false,
        })
    }

    /// A frame begins, which the clock counts already: a delay that ends in it ends (CTA-708-E, Delay).
    pub fn tick(&mut self, clock: Clock)
        requires { clock.ticks < 2 ^ 32 }
        ensures stands { (state : CoreState) → Stands state self.old
            → Stands (after_tick clock state) self.new }
        ensures noted { Notes self.old self.new }
    {
        if is_due(self.until, clock.ticks) {
            self.end_delay(clock);
        }
    }

    /// Takes the next byte, and says whether it brought the held bytes to 128, which ends the delay.
    pub fn byte(&mut self, clock: Clock, byte: u8) -> bool
        requires { clock.ticks < 2 ^ 32 }
        ensures stands { (state : CoreState) → Stands state self.old
            → Stands (after_byte byte clock state) self.new }
        ensures full { (state : CoreState) → Stands state self.old
            → result ≡ (fill byte state == 128) }
        ensures noted { Notes self.old self.new }
    {
        let completed = self.reader.take(byte);
        if is_reset(&completed) {
            self.reset();
            return false;
        }
        if self.until.is_none() {
            if let Some(command) = &completed {
                self.act(clock, command);
            }
            return false;
        }
        if is_cancel(&completed) {
            self.end_delay(clock);
            return false;
        }
        if self.held.len() + 1 < FULL {
            self.held.push(byte);
            return false;
        }
        self.end_full(clock, byte);
        true
    }

    /// Resets the service, as a Reset command does (CTA-708-E, Reset).
    #[cold]
    pub fn reset(&mut self)
        ensures clean { Stands clean self.new }
        ensures noted { Notes self.old self.new }
    {
        self.screen.reset();
        self.reader = OpenCommand::new();
        self.until = None;
        self.held.clear();
        self.changed = true;
    }

    /// The number of held bytes, at most 127.
    pub fn held(&self) -> u8
        ensures held { (state : CoreState) → Stands state self.now → result ≡ length state.held }
        ensures most { result ≤ 127 }
    {
        self.held.len() as u8
    }

    /// In a delay, the frame that ends it, counted as the clock counts.
    pub fn until(&self) -> Option<u64>
        ensures state { (state : CoreState) → Stands state self.now → result ≡ state.until }
        ensures end { result ≡ core_delay_end self.now }
    {
        self.until
    }

    /// The window of an id, where there is one.
    pub fn window(&self, id: u8) -> Option<&Window>
        ensures window { (state : CoreState) → Stands state self.now
            → MatchOption result (state.screen.windows id ≡ None)
            (λ window. window_of window.now ≡ state.screen.windows id) }
        ensures live { IfSome result (λ window. IsTrue (is_live window.now)) }
    {
        self.screen.window(id)
    }

    /// Whether what is shown of any window may have changed since this was last asked, or since the service was new: where it
    /// says no, it is the same.
    pub fn take_changed(&mut self) -> bool
        ensures told { result ≡ has_changed self.old }
        ensures asked { has_changed self.new ≡ false }
        ensures stands { (state : CoreState) → Stands state self.old → Stands state self.new }
        ensures end { core_delay_end self.new ≡ core_delay_end self.old }
        ensures screen { screen_in self.new ≡ screen_in self.old }
    {
        mem::replace(&mut self.changed, false)
    }

    // A delay ends.
    #[cold]
    fn end_delay(&mut self, clock: Clock)
        requires { clock.ticks < 2 ^ 32 }
        ensures noted { has_changed self.new ≡ true }
        ensures stands { (state : CoreState) (end : ℕ) → Stands state self.old
            → state.until ≡ Some end
            → Stands (released clock state) self.new }
    {
        let held = self.held.take();
        self.act_all(clock, held.as_slice());
        self.changed = true;
    }

    // The byte that brings the held bytes to 128 ends the delay.
    #[cold]
    fn end_full(&mut self, clock: Clock, byte: u8)
        requires ticks { clock.ticks < 2 ^ 32 }
        requires full { length self.old.held.items + 1 ≡ 128 }
        ensures acted { Carries (all_acted (completions [] (self.old.held.items ++ byte ∷ [])) clock
            (acting_on (front_from open_after [] (self.old.held.items ++ byte ∷ []))
            (screen_of self.old.screen))) self.new.held.items self.new }
        ensures reader { self.new.reader ≡ self.old.reader }
        ensures noted { has_changed self.new ≡ true }
    {
        let mut filled = self.held.take();
        filled.push(byte);
        self.act_all(clock, filled.as_slice());
        self.changed = true;
    }

    // Held bytes act in order; a delay that starts there holds all that follows it.
    fn act_all(&mut self, clock: Clock, bytes: &[u8])
        requires ticks { clock.ticks < 2 ^ 32 }
        requires empty { self.old.held.items ≡ [] }
        requires room { length bytes.now ≤ 128 }
        ensures acted { Carries (all_acted (completions [] bytes.now) clock
            (acting_on (front_from open_after [] bytes.now)
            (screen_of self.old.screen))) self.new.held.items self.new }
        ensures reader { self.new.reader ≡ self.old.reader }
    {
        let mut reader = OpenCommand::new();
        self.until = None;
        for (k, byte) in bytes.iter().enumerate() {
            if let Some(command) = reader.take(*byte) {
                self.act(clock, &command);
                if self.until.is_some() {
                    hold(&mut self.held, &bytes[k + 1..]);
                    return;
                }
            }
        }
    }

    // A command acts.
    fn act(&mut self, clock: Clock, command: &Command)
        requires ticks { clock.ticks < 2 ^ 32 }
        requires fits { IsSpellable command.now }
        ensures screen { screen_of self.new.screen
            ≡ on_screen command.now (screen_of self.old.screen) }
        ensures until { self.new.until ≡ until_of (tenths_of command.now) clock self.old.until }
        ensures noted { Notes self.old self.new }
        ensures held { self.new.held.items ≡ self.old.held.items }
        ensures reader { self.new.reader ≡ self.old.reader }
    {
        let tenths = tenths_of(command);
        if tenths != 0 {
            self.until = Some(clock.ticks + u64::from(clock.rate.delay_frames(tenths)));
        }
        if self.screen.run(command) {
            self.changed = true;
        }
    }
}
