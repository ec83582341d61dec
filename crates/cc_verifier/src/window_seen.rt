ghost use Rattle.std.specs.Prelude.{◌≡◌, ◌≢◌, ◌<◌, ◌≤◌, false, true, ℕ, Some, None, IfSome, IsTrue, is_some, unwrap_or};
ghost use Rattle.cue_lists.specs.AuthoredServiceGrid.{authored_window, cue_window, written_cells};
ghost use Rattle.cue_types.specs.Cues.{IsCueFormed};
ghost use Rattle.dtvcc_windows.specs.Objects.{is_live, state_of};
ghost use Rattle.dtvcc_windows.specs.Showing.{as_shown, shown};
ghost use Rattle.dtvcc_windows.specs.Styles.{window_style};
ghost use Rattle.cc_verifier.specs.WindowPlaces.{seen_cue};
ghost use Rattle.cc_verifier.specs.WindowSeen.{IsFormedCue, IsFormedWindow, IsLive, cue_part, seen_part, seen_window};

use crate::window_cells::written_cell;
use cue_types::{Cue, Kind, Run, WinCue};
use dtvcc_codes::{Definition, WinAttr};
use dtvcc_windows::{Window, window_style};

/// Whether a received window, where there is one, is seen otherwise than a cue's, or than none where no cue is to be shown
/// (CTA-708-E, caption windows).
pub fn window_differs(window: Option<&Window>, cue: Option<&Cue>) -> bool
    requires live { IsLive window }
    requires formed { IsFormedCue cue }
    ensures same { result ≡ false → seen_window window.entry ≡ seen_cue cue.entry }
    ensures other { result ≡ true → seen_window window.entry ≢ seen_cue cue.entry }
{
    match cue {
        Some(cue) => differs_from_cue(window, cue),
        None => is_seen(window),
    }
}

/// Whether something is seen of a window.
fn is_seen(window: Option<&Window>) -> bool
    ensures { result ≡ is_some (seen_window window.entry) }
{
    match window {
        Some(window) => window.is_shown(),
        None => false,
    }
}

/// Whether a window is seen otherwise than a cue's; a cue of line 21 has none.
fn differs_from_cue(window: Option<&Window>, cue: &Cue) -> bool
    requires live { IsLive window }
    requires formed { IsCueFormed cue.now }
    ensures same { result ≡ false
        → seen_window window.entry ≡ cue_window cue.now.kind cue.now.runs }
    ensures other { result ≡ true
        → seen_window window.entry ≢ cue_window cue.now.kind cue.now.runs }
{
    match cue.kind {
        Kind::Win(own) => differs_from(window, own, cue.runs.as_slice()),
        Kind::Pop(_) | Kind::Paint(_) | Kind::Roll(_, _) => is_seen(window),
    }
}

/// Whether a window is seen otherwise than a cue's window with these runs.
fn differs_from(window: Option<&Window>, own: WinCue, runs: &[Run]) -> bool
    requires live { IsLive window }
    requires formed { IsFormedWindow own runs.now }
    ensures same { result ≡ false → seen_window window.entry ≡ Some (authored_window own runs.now) }
    ensures other { result ≡ true → seen_window window.entry ≢ Some (authored_window own runs.now) }
{
    match window {
        Some(window) => {
            if window.is_shown() {
                looks_other(window, own, runs)
            } else {
                true
            }
        }
        None => true,
    }
}

/// Whether a window that is shown looks otherwise than a cue's window with these runs.
fn looks_other(window: &Window, own: WinCue, runs: &[Run]) -> bool
    requires live { IsTrue (is_live window.now) }
    requires formed { IsFormedWindow own runs.now }
    ensures same { result ≡ false → as_shown (state_of window.now) ≡ authored_window own runs.now }
    ensures other { result ≡ true → as_shown (state_of window.now) ≢ authored_window own runs.now }
{
    let other_part = seen_part(window.definition()) != cue_part(own);
    let other_attributes = window.attributes() != attributes_of(own);
    if other_part || other_attributes {
        return true;
    }
    has_other_cell(window, own, runs)
}

/// Whether some cell of a window is another one than the runs'.
fn has_other_cell(window: &Window, own: WinCue, runs: &[Run]) -> bool
    requires live { IsTrue (is_live window.now) }
    requires formed { IsFormedWindow own runs.now }
    requires rows { (state_of window.now).definition.rows ≡ own.rows }
    requires cols { (state_of window.now).definition.cols ≡ own.cols }
    ensures same { result ≡ false → (state_of window.now).cells ≡ written_cells own.ps runs.now }
    ensures other { result ≡ true → (state_of window.now).cells ≢ written_cells own.ps runs.now }
{
    for row in 0..own.rows {
        if row_has_other_cell(window, own, runs, row) {
            return true;
        }
    }
    false
}

/// Whether some cell of a row is another one.
fn row_has_other_cell(window: &Window, own: WinCue, runs: &[Run], row: u8) -> bool
    requires live { IsTrue (is_live window.now) }
    requires formed { IsFormedWindow own runs.now }
    ensures same { result ≡ false → (column : ℕ) → column < own.cols
        → (state_of window.now).cells row column ≡ written_cells own.ps runs.now row column }
    ensures other { result ≡ true → (state_of window.now).cells ≢ written_cells own.ps runs.now }
{
    for column in 0..own.cols {
        if window.cell(row, column) != written_cell(own.ps, runs, row, column) {
            return true;
        }
    }
    false
}

/// What is seen of a definition.
fn seen_part(definition: Definition) -> Definition
    ensures { result ≡ seen_part definition }
{
    Definition {
        id: 0,
        visible: true,
        ws: 0,
        ps: 0,
        ..definition
    }
}

/// What is to be seen of it for a cue.
fn cue_part(own: WinCue) -> Definition
    ensures { result ≡ cue_part own }
{
    Definition {
        id: 0,
        visible: true,
        row_lock: true,
        col_lock: true,
        priority: own.priority,
        relative: false,
        av: own.av,
        ah: own.ah,
        anchor: own.anchor,
        rows: own.rows,
        cols: own.cols,
        ws: 0,
        ps: 0,
    }
}

/// The attributes of a cue's window: its own, or else its window style's.
fn attributes_of(own: WinCue) -> WinAttr
    requires from { 1 ≤ own.ws }
    requires to { own.ws ≤ 7 }
    ensures { result ≡ unwrap_or own.attr (window_style own.ws) }
{
    match own.attr {
        Some(attributes) => attributes,
        None => window_style(own.ws),
    }
}
