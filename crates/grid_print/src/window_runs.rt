ghost use Rattle.std.specs.Prelude.{◌≡◌, ◌≤◌, ◌*◌, IfSome, IsTrue, length};
ghost use Rattle.dtvcc_windows.specs.Objects.{is_live, state_of, window_of};
ghost use Rattle.dtvcc_windows.specs.Showing.{as_shown};
ghost use Rattle.grid_print.specs.WindowRuns.{window_runs};

use crate::runs_of_row;
use dtvcc_windows::Window;

/// The number of runs of a window that is shown.
pub(crate) fn run_count(window: &Window) -> u16
    requires { IsTrue (is_live window.now) }
    ensures { result ≡ length (window_runs (as_shown (state_of window.now))) }
{
    let rows = window.rows();
    let mut count = 0;
    for row in rows.start..rows.end {
        count += runs_of_row(window.row(row));
    }
    count
}
