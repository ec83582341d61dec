//! Laws of the definitions: functions without a body, whose contract is the law.

ghost use Rattle.std.specs.Prelude.{◌≡◌, ◌↔◌, ℕ, None, length, true};
ghost use Rattle.line21_screen.specs.Grid.{Grid, in_grid};
ghost use Rattle.grid_print.specs.RunsOf.{AreRunsOf};
ghost use Rattle.grid_print.specs.Writing.{in_styles};
ghost use Rattle.grid_print.specs.Runs.{places, runs};

/// The runs of a grid are the longest stretches of neighbouring cells of one row with one style, in which they are written alike
/// (`crate::cell_laws`). Each is one, each cell is in one, and they stand by row, then column.
pub fn runs_are_the_longest_stretches()
    ensures { (grid : Grid) → AreRunsOf in_styles (places grid) (runs grid) }
{}

/// A grid has no run just where no place of it has a cell.
pub fn grids_without_a_run_are_empty()
    ensures { (grid : Grid) → (length (runs grid) ≡ 0)
        ↔ ((row col : ℕ) → in_grid row col ≡ true → grid row col ≡ None) }
{}
