ghost use Rattle.std.specs.Prelude.{◌≡◌, ◌≤◌, ◌<◌, ◌++◌, ℕ, List, IsTrue, codes, decimal, encode_utf8_all, length};
ghost use Rattle.std.specs.List.{flat_map};
ghost use Rattle.dtvcc_windows.specs.Objects.{is_live, state_of};
ghost use Rattle.dtvcc_windows.specs.Showing.{as_shown};
ghost use Rattle.dtvcc_windows.specs.Windows.{WindowState};
ghost use Rattle.text_output.specs.Pages.{Adds};
ghost use Rattle.grid_print.specs.CellRuns.{front_text, row_runs};
ghost use Rattle.grid_print.specs.Writing.{in_pens};
ghost use Rattle.grid_print.specs.WindowTexts.{all_joined, all_spaced, attributes_text, colors_text, flag, pen_attributes_text, place_text, window_line, window_run_line, window_text};

use crate::window_runs::run_count;
use crate::{begun, write_front};
use cc_base::Sink;
use dtvcc_codes::{Definition, PenAttr, PenColors, WinAttr};
use dtvcc_windows::{DCell, Window};
use text_output::Gathered;

/// Writes the text of a window that is shown: what is shown of it, and its runs.
pub fn write_window<O: Sink>(id: u8, window: &Window, text: &mut Gathered, out: &mut O)
    requires { IsTrue (is_live window.now) }
    ensures { Adds O.written O.faults text.old out.old text.new out.new
        (window_text id (as_shown (state_of window.now))) }
{
    write_line(id, window, text, out);
    let rows = window.rows();
    for row in rows.start..rows.end {
        write_row(row, window.row(row), text, out);
    }
}

// Writes the line of a window.
fn write_line<O: Sink>(id: u8, window: &Window, text: &mut Gathered, out: &mut O)
    requires { IsTrue (is_live window.now) }
    ensures { Adds O.written O.faults text.old out.old text.new out.new
        (window_line id (as_shown (state_of window.now))) }
{
    text.write(b"W", out);
    write_small(id, text, out);
    write_place(&window.definition(), text, out);
    write_attributes(&window.attributes(), text, out);
    text.write(b" runs ", out);
    write_count(run_count(window), text, out);
    text.write(b"\n", out);
}

// Writes where a window stands and how large it is.
fn write_place<O: Sink>(d: &Definition, text: &mut Gathered, out: &mut O)
    ensures { (w : WindowState) → w.definition ≡ d.now
        → Adds O.written O.faults text.old out.old text.new out.new (place_text (as_shown w)) }
{
    text.write(b" at", out);
    write_spaced(&[flag(d.relative), d.av, d.ah, d.anchor], text, out);
    text.write(b" size", out);
    write_spaced(&[d.rows, d.cols], text, out);
    text.write(b" lock", out);
    write_spaced(&[flag(d.row_lock), flag(d.col_lock)], text, out);
    text.write(b" pri", out);
    write_spaced(&[d.priority], text, out);
}

// Writes the attributes of a window.
fn write_attributes<O: Sink>(a: &WinAttr, text: &mut Gathered, out: &mut O)
    ensures { Adds O.written O.faults text.old out.old text.new out.new (attributes_text a.now) }
{
    text.write(b" attr", out);
    let numbers = [
        a.justify,
        a.print,
        a.scroll,
        flag(a.wrap),
        a.effect,
        a.effect_dir,
        a.effect_speed,
    ];
    write_spaced(&numbers, text, out);
    text.write(b" fill ", out);
    write_joined(&[a.fill.opacity, a.fill.r, a.fill.g, a.fill.b], text, out);
    text.write(b" border ", out);
    write_joined(
        &[a.border_kind, a.border.r, a.border.g, a.border.b],
        text,
        out,
    );
}

// Writes the lines of a row's runs.
fn write_row<O: Sink>(row: u8, cells: &[Option<DCell>], text: &mut Gathered, out: &mut O)
    requires { length cells.now ≤ 64 }
    ensures { Adds O.written O.faults text.old out.old text.new out.new
        (flat_map window_run_line (row_runs in_pens row cells.now)) }
{
    let mut left = None;
    for (col, cell) in cells.iter().enumerate() {
        if let Some(first) = begun(left, *cell) {
            write_run(row, col as u8, first, &cells[col..], text, out);
        }
        left = *cell;
    }
}

// Writes the line of the run at the front of what stands from a column on.
fn write_run<O: Sink>(
    row: u8,
    col: u8,
    first: DCell,
    cells: &[Option<DCell>],
    text: &mut Gathered,
    out: &mut O,
)
    ensures { Adds O.written O.faults text.old out.old text.new out.new (window_run_line
        (record { row = row; col = col; first = first; text = front_text in_pens first cells.now })) }
{
    write_small(row, text, out);
    write_spaced(&[col], text, out);
    write_pen(first.pen, text, out);
    write_colors(first.colors, text, out);
    write_front(first, cells, text, out);
    text.write(b"\n", out);
}

// Writes the attributes of a pen.
fn write_pen<O: Sink>(p: PenAttr, text: &mut Gathered, out: &mut O)
    ensures { Adds O.written O.faults text.old out.old text.new out.new (pen_attributes_text p) }
{
    let numbers = [
        p.size,
        p.font,
        p.tag,
        p.offset,
        flag(p.italic),
        flag(p.underline),
        p.edge,
    ];
    write_spaced(&numbers, text, out);
}

// Writes its colours.
fn write_colors<O: Sink>(c: PenColors, text: &mut Gathered, out: &mut O)
    ensures { Adds O.written O.faults text.old out.old text.new out.new (colors_text c) }
{
    text.write(b" ", out);
    write_joined(&[c.fg.opacity, c.fg.r, c.fg.g, c.fg.b], text, out);
    text.write(b" ", out);
    write_joined(&[c.bg.opacity, c.bg.r, c.bg.g, c.bg.b], text, out);
    text.write(b" ", out);
    write_joined(&[c.edge.r, c.edge.g, c.edge.b], text, out);
    text.write(b" ", out);
}

// Writes numbers, each after a space.
fn write_spaced<O: Sink>(numbers: &[u8], text: &mut Gathered, out: &mut O)
    ensures { Adds O.written O.faults text.old out.old text.new out.new (all_spaced numbers.now) }
{
    for number in numbers {
        write_one_spaced(*number, text, out);
    }
}

// Writes a space and a number.
fn write_one_spaced<O: Sink>(number: u8, text: &mut Gathered, out: &mut O)
    ensures { Adds O.written O.faults text.old out.old text.new out.new (codes " " ++ decimal number) }
{
    text.write(b" ", out);
    write_small(number, text, out);
}

// Writes numbers without spaces.
fn write_joined<O: Sink>(numbers: &[u8], text: &mut Gathered, out: &mut O)
    ensures { Adds O.written O.faults text.old out.old text.new out.new (all_joined numbers.now) }
{
    for number in numbers {
        write_small(*number, text, out);
    }
}

// Writes a small number.
fn write_small<O: Sink>(number: u8, text: &mut Gathered, out: &mut O)
    ensures { Adds O.written O.faults text.old out.old text.new out.new (decimal number) }
{
    text.write_number(u32::from(number), out);
}

// Writes a count.
fn write_count<O: Sink>(count: u16, text: &mut Gathered, out: &mut O)
    ensures { Adds O.written O.faults text.old out.old text.new out.new (decimal count) }
{
    text.write_number(u32::from(count), out);
}

// A flag is printed as 0 or 1.
fn flag(on: bool) -> u8
    ensures { result ≡ flag on }
{
    u8::from(on)
}
