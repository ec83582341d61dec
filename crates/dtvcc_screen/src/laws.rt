//! Laws of the definitions: functions without a body, whose contract is the law.

ghost use Rattle.std.specs.Prelude.{◌≡◌, ◌≤◌, ℕ, List, [], length, true};
ghost use Rattle.dtvcc_codes.specs.declared.commands.Command.{Command};
ghost use Rattle.dtvcc_codes.specs.Reading.{completed, completions};
ghost use Rattle.dtvcc_screen.specs.declared.clock.Clock.{Clock};
ghost use Rattle.dtvcc_screen.specs.Commands.{on_screen};
ghost use Rattle.dtvcc_screen.specs.Cores.{CoreState, after_byte, clean, fill, is_reset};
ghost use Rattle.dtvcc_screen.specs.Laws.{HasNoReset, IsCurrentHidden, bytes_among, is_text, on_screen_all};
ghost use Rattle.dtvcc_screen.specs.Meaning.{Event, Reset, Served, on_event, served_after, start};
ghost use Rattle.dtvcc_screen.specs.Screens.{ScreenState, empty_screen};
ghost use Rattle.dtvcc_screen.specs.Shown.{grids};

/// A delay only puts off. Where all that is held has acted, the screen is the one to which all commands lead that came, in the
/// order in which they came, as if there were no delays.
pub fn delays_only_put_off()
    ensures { (events : List Event) → HasNoReset [] events
        → let core = (served_after start events).core in
        on_screen_all core.held core.screen
        ≡ on_screen_all (completions [] (bytes_among events)) empty_screen }
{}

/// Fewer than 128 bytes are held, and at most 128 for a moment.
pub fn few_bytes_are_held()
    ensures held { (events : List Event) → length (served_after start events).core.held ≤ 127 }
    ensures fill { (events : List Event) (byte : ℕ)
        → fill byte (served_after start events).core ≤ 128 }
{}

/// A Reset command, in a delay too, and a reset from outside leave a service without windows, without a delay and with nothing
/// held; the clock goes on.
pub fn resets_leave_nothing()
    ensures command { (byte : ℕ) (clock : Clock) (core : CoreState)
        → is_reset (completed core.open_bytes byte) ≡ true
        → after_byte byte clock core ≡ clean }
    ensures outside { (s : Served) → on_event Reset s ≡ record s { core = clean } }
{}

/// Text that goes to a hidden window shows nothing, in no window.
pub fn text_in_a_hidden_window_shows_nothing()
    ensures { (command : Command) (s : ScreenState) (id : ℕ) → is_text command ≡ true
        → IsCurrentHidden s
        → grids (on_screen command s) id ≡ grids s id }
{}
