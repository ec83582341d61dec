ghost use Rattle.std.specs.Prelude.{◌≡◌, ◌≤◌, ℕ, encode_utf8_all, length};
ghost use Rattle.text_output.specs.Pages.{Adds};
ghost use Rattle.grid_print.specs.CellRuns.{begun, front_text, is_alike, row_runs};

use crate::cells::WrittenCell;
use cc_base::Sink;
use text_output::Gathered;

/// Whether a cell stands at a place that is written as the first one.
fn is_alike<C: WrittenCell>(first: C, cell: Option<C>) -> bool
    ensures { result ≡ is_alike C.writing first cell }
{
    match cell {
        Some(cell) => first.is_alike(cell),
        None => false,
    }
}

/// The cell with which a run begins at a place, if one does, by what stands there and on its left.
pub fn begun<C: WrittenCell>(left: Option<C>, cell: Option<C>) -> Option<C>
    ensures { result ≡ begun C.writing left cell }
{
    match cell {
        Some(cell) if !is_alike(cell, left) => Some(cell),
        _ => None,
    }
}

/// The number of runs of a row.
pub fn runs_of_row<C: WrittenCell>(cells: &[Option<C>]) -> u16
    requires { length cells.now ≤ 64 }
    ensures count { (row : ℕ) → result ≡ length (row_runs C.writing row cells.now) }
    ensures most { result ≤ 64 }
{
    let mut count = 0;
    let mut left = None;
    for cell in cells {
        if begun(left, *cell).is_some() {
            count += 1;
        }
        left = *cell;
    }
    count
}

/// Writes the characters of the cells at the front that are written as the first one.
pub fn write_front<C: WrittenCell, O: Sink>(
    first: C,
    cells: &[Option<C>],
    text: &mut Gathered,
    out: &mut O,
)
    ensures { Adds O.written O.faults text.old out.old text.new out.new
        (encode_utf8_all (front_text C.writing first cells.now)) }
{
    for cell in cells {
        match cell {
            Some(cell) if first.is_alike(*cell) => text.write_character(cell.character(), out),
            _ => return,
        }
    }
}
