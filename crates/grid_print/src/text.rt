ghost use Rattle.std.specs.Prelude.{◌≡◌, ◌≤◌, ◌==◌, not, if◌then◌else◌, List, [], encode_utf8_all, length};
ghost use Rattle.std.specs.List.{flat_map};
ghost use Rattle.line21_screen.specs.Objects.{grid_in};
ghost use Rattle.text_output.specs.Pages.{Adds};
ghost use Rattle.grid_print.specs.GridTexts.{frame_line, grid_text, run_line};
ghost use Rattle.grid_print.specs.CellRuns.{front_text, row_runs};
ghost use Rattle.grid_print.specs.Writing.{in_styles};
ghost use Rattle.grid_print.specs.Runs.{runs};

use crate::runs::run_count;
use crate::{begun, write_front};
use cc_base::Sink;
use itoa::Buffer;
use line21_codes::{Cell, Chan, italic_mark, underline_mark};
use line21_screen::Memory;
use text_output::Gathered;

/// Writes the line of a frame.
pub(crate) fn write_frame<O: Sink>(frame: u64, text: &mut Gathered, out: &mut O)
    ensures { Adds O.written O.faults text.old out.old text.new out.new (frame_line frame) }
{
    text.write(b"frame ", out);
    text.write_long(frame, out);
    text.write(b"\n", out);
}

/// Writes the text of a channel's grid, if that has a run.
pub(crate) fn write_grid_unless_empty<O: Sink>(
    chan: Chan,
    memory: &Memory,
    text: &mut Gathered,
    out: &mut O,
)
    ensures { Adds O.written O.faults text.old out.old text.new out.new
        (if not (length (runs (grid_in memory.now)) == 0) then grid_text chan
        (grid_in memory.now) else []) }
{
    if run_count(memory) != 0 {
        write_grid(chan, memory, text, out);
    }
}

/// Writes the text of a channel's grid.
pub(crate) fn write_grid<O: Sink>(chan: Chan, memory: &Memory, text: &mut Gathered, out: &mut O)
    ensures { Adds O.written O.faults text.old out.old text.new out.new
        (grid_text chan (grid_in memory.now)) }
{
    text.write_all(
        &[
            chan.name().as_bytes(),
            b" ",
            Buffer::new().format(run_count(memory)).as_bytes(),
            b"\n",
        ],
        out,
    );
    let rows = memory.rows();
    for row in rows.start..rows.end {
        write_row(row, memory.row(row), text, out);
    }
}

// Writes the lines of a row's runs.
fn write_row<O: Sink>(row: u8, cells: &[Option<Cell>], text: &mut Gathered, out: &mut O)
    requires { length cells.now ≤ 32 }
    ensures { Adds O.written O.faults text.old out.old text.new out.new
        (flat_map run_line (row_runs in_styles row cells.now)) }
{
    let mut left = None;
    for (col, cell) in cells.iter().enumerate() {
        if let Some(first) = begun(left, *cell) {
            write_run(row, col as u8, first, &cells[col..], text, out);
        }
        left = *cell;
    }
}

// Writes the line of the run at the front of what stands from a column on.
fn write_run<O: Sink>(
    row: u8,
    col: u8,
    first: Cell,
    cells: &[Option<Cell>],
    text: &mut Gathered,
    out: &mut O,
)
    ensures { Adds O.written O.faults text.old out.old text.new out.new
        (run_line (record { row = row; col = col; first = first; text = front_text in_styles first cells.now })) }
{
    text.write_all(
        &[
            Buffer::new().format(row).as_bytes(),
            b" ",
            Buffer::new().format(col).as_bytes(),
            b" ",
            first.style.colour.word().as_bytes(),
            italic_mark(first.style.italic).as_bytes(),
            underline_mark(first.style.underline).as_bytes(),
            b" ",
        ],
        out,
    );
    write_front(first, cells, text, out);
    text.write(b"\n", out);
}
