ghost use Rattle.std.specs.Prelude.{◌≡◌, length};
ghost use Rattle.line21_screen.specs.Objects.{grid_in};
ghost use Rattle.grid_print.specs.Runs.{runs};

use crate::runs_of_row;
use line21_screen::Memory;

/// The number of runs of a memory's grid.
pub(crate) fn run_count(memory: &Memory) -> u16
    ensures { result ≡ length (runs (grid_in memory.now)) }
{
    let rows = memory.rows();
    let mut count = 0;
    for row in rows.start..rows.end {
        count += runs_of_row(memory.row(row));
    }
    count
}
