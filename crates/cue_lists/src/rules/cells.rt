ghost use Rattle.std.specs.Prelude.{◌≡◌, ◌-◌, ◌^◌, ◌<◌, All};
ghost use Rattle.cue_types.specs.Cells.{is_coloured, has_lead, first_column, end_column, have_shared_cell, IsOnGrid};

use cue_types::{Pen, Run};
use line21_codes::Colour;

/// Whether two of the runs write one cell, lead cells counted.
pub fn have_shared_cell(runs: &[Run]) -> bool
    requires { All IsOnGrid runs.now }
    ensures { result ≡ have_shared_cell runs.now }
{
    let mut written = [0u64; 16];
    for run in runs {
        let row = run.row as usize;
        let columns = columns(run);
        if written[row] & columns != 0 {
            return true;
        }
        written[row] |= columns;
    }
    false
}

/// The columns that a run writes, a bit each.
fn columns(run: &Run) -> u64
    requires { end_column run.now < 64 }
    ensures { result ≡ 2 ^ end_column run.now - 2 ^ first_column run.now }
{
    let end = run.col as usize + run.text.as_slice().len();
    (1 << end) - (1 << first_column(run))
}

/// The first column that a run writes, its lead cell counted.
fn first_column(run: &Run) -> u8
    ensures { result ≡ first_column run.now }
{
    if has_lead(run) { run.col - 1 } else { run.col }
}

/// A line 21 run with a mid-row code has a lead cell, left of its first character.
fn has_lead(run: &Run) -> bool
    ensures { result ≡ has_lead run.now }
{
    is_coloured(run.pen) && run.col > 0
}

/// A line 21 pen in a colour other than white, or in italics.
fn is_coloured(pen: Pen) -> bool
    ensures { result ≡ is_coloured pen }
{
    match pen {
        Pen::Line21(style) => !matches!(style.colour, Colour::White) || style.italic,
        Pen::Dtv { .. } => false,
    }
}
