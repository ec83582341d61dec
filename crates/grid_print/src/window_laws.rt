//! Laws of the definitions, and worked examples: functions without a body, whose contract is the law.

ghost use Rattle.std.specs.Prelude.{◌≡◌, ◌↔◌, Some, codes, false};
ghost use Rattle.dtvcc_windows.specs.Showing.{ShownWindow};
ghost use Rattle.dtvcc_windows.specs.Sizes.{IsWithin};
ghost use Rattle.grid_print.specs.Differences.{differs};
ghost use Rattle.grid_print.specs.Examples.{hello, no_service};
ghost use Rattle.grid_print.specs.RunsOf.{AreRunsOf};
ghost use Rattle.grid_print.specs.Writing.{in_pens};
ghost use Rattle.grid_print.specs.WindowRuns.{places, window_runs};
ghost use Rattle.grid_print.specs.WindowTexts.{service_text};

/// The runs of a window are the longest stretches of neighbouring cells of one row with one pen and the same colours, in which they
/// are written alike (`crate::cell_laws`). Each is one, each cell is in one, and they stand by row, then column.
pub fn runs_are_the_longest_stretches()
    ensures { (window : ShownWindow) → AreRunsOf in_pens (places window) (window_runs window) }
{}

/// The text of service 1 where its window 0 has one row of ten columns with HELLO in it, and of service 63 without a window.
pub fn a_window_is_printed()
    ensures hello { service_text 1 hello
        ≡ codes "S1 1\nW0 at 0 60 50 0 size 1 10 lock 1 1 pri 0 attr 0 0 3 0 0 0 0 fill 0000 border 0000 runs 1\n0 0 1 0 0 1 0 0 0 0222 0000 000 HELLO\n" }
    ensures none { service_text 63 no_service ≡ codes "S63 0\n" }
{}

/// Two windows whose cells stand within their sizes don't differ just where they are one.
pub fn windows_differ_where_they_are_two()
    ensures { (a b : ShownWindow) → IsWithin a.rows a.cols a.cells → IsWithin b.rows b.cols b.cells
        → (differs (Some a) (Some b) ≡ false) ↔ (a ≡ b) }
{}
