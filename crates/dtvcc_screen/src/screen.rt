ghost use Rattle.std.specs.Prelude.{◌≡◌, ◌<◌, ℕ, Some, vec_len};

use crate::change::{Change, change_window, edit_window, is_named};
use dtvcc_codes::{Command, Definition};
use dtvcc_windows::Window;
use std::alloc::{AllocError, Global};

// A service has the windows 0 to 7 (CTA-708-E, caption windows).
const WINDOWS: usize = 8;

/// The windows of a service, and which of them is the current one.
#[derive(Drop)]
pub(crate) struct Screen {
    windows: Vec<Window>,
    current: Option<usize>,
    ghost eight: { vec_len windows ≡ 8 },
    ghost current_in: { (id : ℕ) → current ≡ Some id → id < 8 },
}

impl Screen {
    ghost use Rattle.std.specs.Prelude.{false, None, Option, IfOk, IfSome, IsTrue, MatchOption};
    ghost use Rattle.dtvcc_codes.specs.Spellable.{IsDefinition, IsSpellable};
    ghost use Rattle.dtvcc_windows.specs.Objects.{is_live, window_of};
    ghost use Rattle.dtvcc_screen.specs.Changes.{changed_by};
    ghost use Rattle.dtvcc_screen.specs.Commands.{current_without, deleted, edited_by, is_named, on_named, on_screen, with_current, with_definition};
    ghost use Rattle.dtvcc_screen.specs.Objects.{screen_of, windows_of};
    ghost use Rattle.dtvcc_screen.specs.Screens.{empty_screen, on_current, on_windows};
    ghost use Rattle.dtvcc_screen.specs.Shown.{LooksSame};

    /// A screen without windows. All memory that it ever takes is taken here.
    pub(crate) fn new(alloc: Global) -> Result<Screen, AllocError>
        ensures { IfOk result (λ screen. screen_of screen ≡ empty_screen) }
    {
        let mut windows = Vec::new(alloc);
        for _id in 0..WINDOWS {
            windows.push(Window::new(alloc)?)?;
        }
        Ok(Screen {
            windows,
            current: None,
        })
    }

    /// Deletes all windows.
    pub(crate) fn reset(&mut self)
        ensures { screen_of self.new ≡ empty_screen }
    {
        self.current = None;
        for id in 0..WINDOWS {
            change_window(&mut self.windows[id], Change::Delete);
        }
    }

    /// The window of an id, where there is one.
    pub(crate) fn window(&self, id: u8) -> Option<&Window>
        ensures window { MatchOption result ((screen_of self.now).windows id ≡ None)
            (λ window. window_of window.now ≡ (screen_of self.now).windows id) }
        ensures live { IfSome result (λ window. IsTrue (is_live window.now)) }
    {
        let id = usize::from(id);
        if id >= WINDOWS {
            return None;
        }
        let window = &self.windows[id];
        if window.live() { Some(window) } else { None }
    }

    /// Does what a command says, and says whether a viewer may see a change.
    pub(crate) fn run(&mut self, command: &Command) -> bool
        requires { IsSpellable command.now }
        ensures screen { screen_of self.new ≡ on_screen command.now (screen_of self.old) }
        ensures seen { result ≡ false → LooksSame (screen_of self.old) (screen_of self.new) }
    {
        match command {
            Command::Put(_)
            | Command::Bs
            | Command::Ff
            | Command::Cr
            | Command::Hcr
            | Command::Spa(_)
            | Command::Spc(_)
            | Command::Spl { .. }
            | Command::Swa(_) => return self.edit(command),
            Command::Cw(id) => {
                self.choose(*id);
                return false;
            }
            Command::Dly(_) | Command::Dlc | Command::Rst | Command::Etx | Command::Skipped =>
                return false,
            Command::Df(definition) => self.define(definition),
            Command::Clw(bits) => self.change(*bits, Change::Clear),
            Command::Dsw(bits) => self.change(*bits, Change::Show),
            Command::Hdw(bits) => self.change(*bits, Change::Hide),
            Command::Tgw(bits) => self.change(*bits, Change::Toggle),
            Command::Dlw(bits) => self.delete(*bits),
        }
        true
    }

    // DefineWindow.
    #[inline(never)]
    fn define(&mut self, definition: &Definition)
        requires { IsDefinition definition.now }
        ensures { screen_of self.new ≡ with_definition definition.now (screen_of self.old) }
    {
        let id = usize::from(definition.id);
        self.windows[id].define(definition);
        self.current = Some(id);
    }

    // SetCurrentWindow.
    fn choose(&mut self, id: u8)
        requires { id < 8 }
        ensures { screen_of self.new ≡ with_current id (screen_of self.old) }
    {
        let id = usize::from(id);
        if self.windows[id].live() {
            self.current = Some(id);
        }
    }

    // Changes the windows that a byte names.
    #[inline(never)]
    fn change(&mut self, bits: u8, change: Change)
        ensures windows { windows_of self.new.windows.items
            ≡ on_windows (is_named bits) (changed_by change) (windows_of self.old.windows.items) }
        ensures current { self.new.current ≡ self.old.current }
    {
        for id in 0..WINDOWS {
            if is_named(bits, id) {
                change_window(&mut self.windows[id], change);
            }
        }
    }

    // DeleteWindows.
    fn delete(&mut self, bits: u8)
        ensures { screen_of self.new
            ≡ record (on_named bits deleted
            (screen_of self.old)) { current = current_without bits self.old.current } }
    {
        self.change(bits, Change::Delete);
        if let Some(id) = self.current
            && is_named(bits, id)
        {
            self.current = None;
        }
    }

    // Does what a command of text says to the current window, and says whether this is shown.
    fn edit(&mut self, command: &Command) -> bool
        ensures screen { screen_of self.new
            ≡ on_current (edited_by command.now) (screen_of self.old) }
        ensures seen { result ≡ false → LooksSame (screen_of self.old) (screen_of self.new) }
    {
        let Some(id) = self.current else {
            return false;
        };
        let window = &mut self.windows[id];
        let shown = window.is_shown();
        edit_window(window, command);
        shown
    }
}
