ghost use Rattle.std.specs.Prelude.{◌≡◌, ◌++◌, OnOk};
ghost use Rattle.line21_author.specs.RunCodes.{is_upright_white, mid_row_colour, tab_codes, white_approach, approach, run_codes};

use crate::channel::first_channel;
use crate::text::push_text;
use cue_lists::{Pen, Run};
use line21_codes::{Code, Colour, Control, Style};
use std::alloc::AllocError;

/// Appends the codes of a run: those that bring the pen to its place and style, and its text's.
pub(crate) fn push_run(codes: &mut Vec<Code>, run: &Run) -> Result<(), AllocError>
    ensures { OnOk result (codes.new.items ≡ codes.old.items ++ run_codes run.now) }
{
    match run.pen {
        Pen::Line21(style) => {
            push_approach(codes, run.row, run.col, style)?;
            push_text(codes, &run.text)
        }
        Pen::Dtv { .. } => Ok(()),
    }
}

// Appends the codes that bring the pen to a row, a column and a style.
fn push_approach(codes: &mut Vec<Code>, row: u8, col: u8, style: Style) -> Result<(), AllocError>
    ensures { OnOk result (codes.new.items ≡ codes.old.items ++ approach row col style) }
{
    if is_upright_white(style) {
        push_white_approach(codes, row, col, style.underline)
    } else if col == 0 {
        codes.push(first_channel(Control::Preamble { row, col: 0, style }))?;
        Ok(())
    } else {
        push_white_approach(codes, row, col - 1, false)?;
        let mid_row = Control::MidRow {
            colour: mid_row_colour(style),
            underline: style.underline,
        };
        codes.push(first_channel(mid_row))?;
        Ok(())
    }
}

// Appends the codes that bring the pen to a row and a column in white.
fn push_white_approach(
    codes: &mut Vec<Code>,
    row: u8,
    col: u8,
    underline: bool,
) -> Result<(), AllocError>
    ensures { OnOk result (codes.new.items ≡ codes.old.items ++ white_approach row col underline) }
{
    let columns = col % 4;
    let style = Style {
        colour: Colour::White,
        italic: false,
        underline,
    };
    let preamble = Control::Preamble {
        row,
        col: col - columns,
        style,
    };
    codes.push(first_channel(preamble))?;
    if columns != 0 {
        codes.push(first_channel(Control::Tab(columns)))?;
    }
    Ok(())
}

// Whether the style is upright white.
fn is_upright_white(style: Style) -> bool
    ensures { result ≡ is_upright_white style }
{
    matches!(style.colour, Colour::White) && !style.italic
}

// The colour that the style's mid-row code names.
fn mid_row_colour(style: Style) -> Option<Colour>
    ensures { result ≡ mid_row_colour style }
{
    if style.italic {
        None
    } else {
        Some(style.colour)
    }
}
