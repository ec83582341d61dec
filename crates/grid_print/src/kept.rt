ghost use Rattle.std.specs.Prelude.{◌≡◌, ◌<◌, ℕ, List, None, false, IfOk, length, vec_len, Option};
ghost use Rattle.dtvcc_windows.specs.Showing.{ShownWindow};
ghost use Rattle.dtvcc_services.specs.Numbers.{IsService};
ghost use Rattle.dtvcc_windows.specs.Objects.{window_of};
ghost use Rattle.dtvcc_windows.specs.Showing.{shown};
ghost use Rattle.grid_print.specs.Differences.{differs};
ghost use Rattle.grid_print.specs.Keeping.{KeepsWindows, windows_seen};

use crate::differs;
use crate::service::{WINDOWS, seen};
use cc_receiver::Grids;
use dtvcc_windows::Window;
use std::alloc::{AllocError, Global};

/// The windows of a service as they were shown last.
#[derive(Drop)]
pub(crate) struct Kept {
    windows: Vec<Window>,
    // Whether one was ever kept.
    used: bool,
    // Whether they changed when they were kept last.
    changed: bool,
    pub ghost eight: { vec_len windows ≡ 8 },
    pub ghost unused: { used ≡ false → (id : ℕ) → windows_seen windows.items id ≡ None },
}

impl Kept {
    ghost use Rattle.grid_print.specs.Kept.{HasKept, seen_of};

    /// No window is shown. All memory that they ever take is taken here, and none of it written.
    pub(crate) fn new(alloc: Global) -> Result<Kept, AllocError>
        ensures { IfOk result (λ kept. (id : ℕ) → seen_of kept id ≡ None) }
    {
        let mut windows = Vec::new(alloc);
        for _id in 0..WINDOWS {
            windows.push(Window::new(alloc)?)?;
        }
        Ok(Kept {
            windows,
            used: false,
            changed: false,
        })
    }

    /// Whether the windows changed when they were kept last.
    pub(crate) fn has_changed(&self) -> bool
        ensures { result ≡ self.now.changed }
    {
        self.changed
    }

    /// Keeps what is seen of a service, and says whether that differs from what was kept.
    pub(crate) fn keep<G: Grids>(&mut self, r: &G, service: u8) -> bool
        requires { IsService service }
        ensures kept { (seen : ℕ → ℕ → Option ShownWindow) → G.shows r.now seen
            → HasKept (seen service) self.old self.new }
        ensures told { result ≡ self.new.changed }
    {
        if !self.used && !r.is_used(service) {
            self.changed = false;
            return false;
        }
        self.used = true;
        let changed = keep_windows(&mut self.windows, r, service);
        self.changed = changed;
        changed
    }
}

// Keeps what is seen of a service's windows, and says whether that differs from what was kept.
fn keep_windows<G: Grids>(windows: &mut [Window], r: &G, service: u8) -> bool
    requires service { IsService service }
    requires eight { length windows.old ≡ 8 }
    ensures { (seen : ℕ → ℕ → Option ShownWindow) → G.shows r.now seen
        → KeepsWindows (seen service) 8 (windows_seen windows.old)
        (windows_seen windows.new) result }
{
    let mut changed = false;
    for id in 0..windows.len() {
        let differs = keep_window(&mut windows[id], r, service, id as u8);
        changed = changed | differs;
    }
    changed
}

// Keeps what is seen of the window of an id, and says whether that differs from what was kept.
fn keep_window<G: Grids>(kept: &mut Window, r: &G, service: u8, id: u8) -> bool
    requires { IsService service }
    ensures told { (seen : ℕ → ℕ → Option ShownWindow) → G.shows r.now seen
        → result ≡ differs (shown (window_of kept.old)) (seen service id) }
    ensures kept { (seen : ℕ → ℕ → Option ShownWindow) → G.shows r.now seen
        → shown (window_of kept.new) ≡ seen service id }
{
    match seen(r, service, id) {
        None => hide(kept),
        Some(window) => take_over(kept, window),
    }
}

// Keeps no window, and says whether one was kept that was shown.
fn hide(kept: &mut Window) -> bool
    ensures told { result ≡ differs (shown (window_of kept.old)) None }
    ensures kept { shown (window_of kept.new) ≡ None }
{
    let was = kept.is_shown();
    if was {
        kept.delete();
    }
    was
}

// Keeps a window, and says whether it differs from the one that was kept.
fn take_over(kept: &mut Window, now: &Window) -> bool
    ensures told { result ≡ differs (shown (window_of kept.old)) (shown (window_of now.now)) }
    ensures kept { shown (window_of kept.new) ≡ shown (window_of now.now) }
{
    let differs = differs(kept, now);
    if differs {
        kept.copy_from(now);
    }
    differs
}
