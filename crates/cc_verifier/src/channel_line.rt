ghost use Rattle.std.specs.Prelude.{◌≡◌};
ghost use Rattle.cue_lists.specs.AuthoredGrid.{cell_in, cells_of, character_at};
ghost use Rattle.cc_verifier.specs.ChannelLines.{line_cell};
ghost use Rattle.cue_types.specs.Cells.{covers, first_column, has_lead, is_coloured};

use cue_types::{Cue, Pen, Run};
use line21_codes::{Cell, Colour};

/// What stands in a row of a channel: the runs of a cue in this row of theirs.
#[derive(Clone, Copy, PartialEq, Eq)]
pub struct Line {
    /// The number of the cue in its list, counted from 0.
    pub cue: usize,
    /// The row of its runs, 1 to 15.
    pub row: u8,
}

/// The cell at a column, 0 to 31, of what stands in a row, if anything does.
pub fn cell_at(cues: &[Cue], line: Option<Line>, column: u8) -> Option<Cell>
    ensures { result ≡ line_cell cues.now line column }
{
    let line = line?;
    let cue = cues.get(line.cue)?;
    cell_of(cue.runs.as_slice(), line.row, column)
}

/// The cell of runs at a row and a column: the cell of the run that covers the place.
fn cell_of(runs: &[Run], row: u8, column: u8) -> Option<Cell>
    ensures { result ≡ cells_of runs.now row column }
{
    for run in runs {
        if covers(run, row, column) {
            return cell_in(run, column);
        }
    }
    None
}

/// The cell of a run at a column, in its pen.
fn cell_in(run: &Run, column: u8) -> Option<Cell>
    ensures { result ≡ cell_in run.now.pen run.now column }
{
    match run.pen {
        Pen::Line21(style) => Some(Cell {
            ch: character_at(run, column),
            style,
        }),
        Pen::Dtv { .. } => None,
    }
}

/// The character of a run at a column: a space stands at its lead cell.
fn character_at(run: &Run, column: u8) -> char
    ensures { result ≡ character_at run.now column }
{
    if column < run.col {
        return ' ';
    }
    match run.text.as_slice().get(usize::from(column - run.col)) {
        Some(character) => *character,
        None => ' ',
    }
}

/// The run writes the cell in this row and column.
fn covers(run: &Run, row: u8, column: u8) -> bool
    ensures { result ≡ covers run.now row column }
{
    row == run.row
        && first_column(run) <= column
        && (column < run.col || usize::from(column - run.col) < run.text.as_slice().len())
}

/// The first column that the run writes, its lead cell counted.
fn first_column(run: &Run) -> u8
    ensures { result ≡ first_column run.now }
{
    if is_coloured(run.pen) && 0 < run.col {
        run.col - 1
    } else {
        run.col
    }
}

/// A line 21 pen in a colour other than white, or in italics.
fn is_coloured(pen: Pen) -> bool
    ensures { result ≡ is_coloured pen }
{
    match pen {
        Pen::Line21(style) => style.colour != Colour::White || style.italic,
        Pen::Dtv { .. } => false,
    }
}
