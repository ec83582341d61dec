ghost use Rattle.std.specs.Prelude.{◌≡◌, ◌≤◌, ◌-◌, slice_index_or};
ghost use Rattle.cue_lists.specs.AuthoredServiceGrid.{cell_at, has_place, written_cells};
ghost use Rattle.cc_verifier.specs.WindowSeen.{as_written};

use cue_types::{Pen, Run};
use dtvcc_codes::PenAttr;
use dtvcc_windows::{DCell, pen_style};

/// The cell of a window's runs at a row and a column, in a pen style, 1 to 7: the cell of the run that has the place.
pub(crate) fn written_cell(style: u8, runs: &[Run], row: u8, column: u8) -> Option<DCell>
    requires from { 1 ≤ style }
    requires to { style ≤ 7 }
    ensures { result ≡ written_cells style runs.now row column }
{
    for run in runs {
        if has_place(run, row, column) {
            return Some(cell_at(style, run, column));
        }
    }
    None
}

/// A place is in the row of a run, from its COL up to the end of its text.
fn has_place(run: &Run, row: u8, column: u8) -> bool
    ensures { result ≡ has_place run.now row column }
{
    row == run.row && run.col <= column && usize::from(column - run.col) < run.text.as_slice().len()
}

/// The cell of a run at a column.
fn cell_at(style: u8, run: &Run, column: u8) -> DCell
    requires from { 1 ≤ style }
    requires to { style ≤ 7 }
    requires column { run.now.col ≤ column }
    ensures { result ≡ cell_at style run.now column }
{
    let (pen, colors) = pen_style(style);
    DCell {
        ch: character_at(run, column),
        pen: written_as(pen, run.pen),
        colors: run.colors.unwrap_or(colors),
    }
}

/// The character of a run at a column.
fn character_at(run: &Run, column: u8) -> char
    requires { run.now.col ≤ column }
    ensures { result ≡ slice_index_or run.now.text (column - run.now.col) 0x20 }
{
    match run.text.as_slice().get(usize::from(column - run.col)) {
        Some(character) => *character,
        None => ' ',
    }
}

/// A run's own italics and underline in place of a pen style's.
fn written_as(style: PenAttr, pen: Pen) -> PenAttr
    ensures { result ≡ as_written style pen }
{
    match pen {
        Pen::Line21(_) => style,
        Pen::Dtv { italic, underline } => PenAttr {
            italic,
            underline,
            ..style
        },
    }
}
