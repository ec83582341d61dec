ghost use Rattle.std.specs.Prelude.{◌≡◌, ◌≤◌, ◌<◌, IsTrue, length};
ghost use Rattle.dtvcc_windows.specs.Objects.{is_live, state_of};
ghost use Rattle.line21_screen.specs.Objects.{grid_in};
ghost use Rattle.ccsuite_c.specs.Grids.{HoldsGrid, HoldsWindow, cell_count, grid_cell, window_grid_cell};

use crate::cells::{TextCell, WindowCell, text_cell, window_cell};
use dtvcc_windows::Window;
use line21_screen::Memory;

/// The number of cells of a channel.
pub(crate) const GRID_CELLS: usize = 480;

/// Tells the cells of a channel, row by row.
pub(crate) fn tell_grid(memory: &Memory, cells: &mut [TextCell])
    requires { 480 ≤ length cells.old }
    ensures { HoldsGrid (grid_in memory.now) cells.old cells.new }
{
    for place in 0..GRID_CELLS {
        cells[place] = grid_cell(memory, place);
    }
}

// The cell at a place of a channel's rows.
fn grid_cell(memory: &Memory, place: usize) -> TextCell
    requires { place < 480 }
    ensures { result ≡ grid_cell (grid_in memory.now) place }
{
    let row = (place / 32) as u8 + 1;
    text_cell(memory.cell(row, (place % 32) as u8))
}

/// The number of cells of a window.
pub(crate) fn cell_count(window: &Window) -> usize
    requires { IsTrue (is_live window.now) }
    ensures { result ≡ cell_count (state_of window.now) }
{
    let definition = window.definition();
    usize::from(definition.rows) * usize::from(definition.cols)
}

/// Tells the cells of a window, row by row.
pub(crate) fn tell_window_grid(window: &Window, cells: &mut [WindowCell])
    requires live { IsTrue (is_live window.now) }
    requires room { cell_count (state_of window.now) ≤ length cells.old }
    ensures { HoldsWindow (state_of window.now) cells.old cells.new }
{
    for place in 0..cell_count(window) {
        cells[place] = window_grid_cell(window, place);
    }
}

// The cell at a place of a window's rows.
fn window_grid_cell(window: &Window, place: usize) -> WindowCell
    requires live { IsTrue (is_live window.now) }
    requires within { place < cell_count (state_of window.now) }
    ensures { result ≡ window_grid_cell (state_of window.now) place }
{
    let columns = usize::from(window.definition().cols);
    let (row, column) = ((place / columns) as u8, (place % columns) as u8);
    window_cell(window.cell(row, column))
}
