ghost use Rattle.std.specs.Prelude.{◌≡◌, ◌++◌, [], ◌∷◌, All, OnOk, map, Some};
ghost use Rattle.std.specs.List.{flat_map};
ghost use Rattle.dtvcc_codes.specs.declared.commands.Command.TheVariants as command;
ghost use Rattle.dtvcc_codes.specs.Writing.{bytes_of_command};
ghost use Rattle.cue_types.specs.Windows.{IsWindow, IsWindowRun};
ghost use Rattle.dtvcc_author.specs.CueUnits.{IsWritable};
ghost use Rattle.dtvcc_author.specs.WindowCommands.{are_coloured, attribute_commands, character_commands, color_commands, definition_of, run_commands, run_pen, window_commands};

use crate::packed::PackedUnits;
use cue_types::{Pen, Run, WinCue};
use dtvcc_codes::{Command, Definition, PenAttr, PenColors, WinAttr, write_command};
use dtvcc_windows::pen_style;
use std::alloc::AllocError;

/// Appends the units that load runs into a window.
pub(crate) fn push_window(
    units: &mut PackedUnits,
    window: WinCue,
    runs: &[Run],
) -> Result<(), AllocError>
    requires window { IsWindow window }
    requires runs { All (IsWindowRun window) runs.now }
    ensures { OnOk result (units.new
        ≡ units.old ++ map bytes_of_command (window_commands window runs.now)) }
{
    push_command(units, Command::Df(definition_of(window)))?;
    push_attributes(units, window.attr)?;
    let (pen, colors) = pen_style(window.ps);
    let coloured = are_coloured(runs);
    push_runs(units, coloured, pen, colors, runs)
}

// Appends the unit of a command: what is written of it.
#[inline(always)]
fn push_command(units: &mut PackedUnits, command: Command) -> Result<(), AllocError>
    requires { IsWritable command }
    ensures { OnOk result (units.new ≡ units.old ++ bytes_of_command command ∷ []) }
{
    units.push(write_command(&command))
}

// DefineWindow of a cue's window: it is hidden, its size is locked, and its anchor is given in cells.
fn definition_of(window: WinCue) -> Definition
    ensures { result ≡ definition_of window }
{
    Definition {
        id: window.id,
        visible: false,
        row_lock: true,
        col_lock: true,
        priority: window.priority,
        relative: false,
        av: window.av,
        ah: window.ah,
        anchor: window.anchor,
        rows: window.rows,
        cols: window.cols,
        ws: window.ws,
        ps: window.ps,
    }
}

// Appends the unit that sets a window's own attributes, if it has its own.
fn push_attributes(units: &mut PackedUnits, attributes: Option<WinAttr>) -> Result<(), AllocError>
    requires { All IsWritable (attribute_commands attributes) }
    ensures { OnOk result (units.new
        ≡ units.old ++ map bytes_of_command (attribute_commands attributes)) }
{
    if let Some(attributes) = attributes {
        push_command(units, Command::Swa(attributes))?;
    }
    Ok(())
}

// Whether some run has colours of its own.
fn are_coloured(runs: &[Run]) -> bool
    ensures { result ≡ are_coloured runs.now }
{
    runs.iter().any(|run| run.colors.is_some())
}

// Appends the units of runs.
fn push_runs(
    units: &mut PackedUnits,
    coloured: bool,
    pen: PenAttr,
    colors: PenColors,
    runs: &[Run],
) -> Result<(), AllocError>
    requires { All (λ run. All IsWritable (run_commands coloured pen colors run)) runs.now }
    ensures { OnOk result (units.new
        ≡ units.old ++ map bytes_of_command
        (flat_map (run_commands coloured pen colors) runs.now)) }
{
    for run in runs {
        push_run(units, coloured, pen, colors, run)?;
    }
    Ok(())
}

// Appends the units of a run.
fn push_run(
    units: &mut PackedUnits,
    coloured: bool,
    pen: PenAttr,
    colors: PenColors,
    run: &Run,
) -> Result<(), AllocError>
    requires { All IsWritable (run_commands coloured pen colors run.now) }
    ensures { OnOk result (units.new
        ≡ units.old ++ map bytes_of_command (run_commands coloured pen colors run.now)) }
{
    let place = Command::Spl {
        row: run.row,
        col: run.col,
    };
    push_command(units, place)?;
    push_command(units, Command::Spa(pen_of(pen, run.pen)))?;
    push_colors(units, coloured, colors, run.colors)?;
    push_characters(units, run.text.as_slice())
}

// The pen of a run: the pen of the window's style, with the run's italics and underline.
fn pen_of(style: PenAttr, pen: Pen) -> PenAttr
    ensures { result ≡ run_pen style pen }
{
    match pen {
        Pen::Line21(_) => style,
        Pen::Dtv { italic, underline } => PenAttr {
            italic,
            underline,
            ..style
        },
    }
}

// Appends the unit that sets a run's colours, in a cue of which some run has its own.
fn push_colors(
    units: &mut PackedUnits,
    coloured: bool,
    style: PenColors,
    own: Option<PenColors>,
) -> Result<(), AllocError>
    requires { All IsWritable (color_commands coloured style own) }
    ensures { OnOk result (units.new
        ≡ units.old ++ map bytes_of_command (color_commands coloured style own)) }
{
    if coloured {
        push_command(units, Command::Spc(own.unwrap_or(style)))?;
    }
    Ok(())
}

// Appends the units of characters.
fn push_characters(units: &mut PackedUnits, text: &[char]) -> Result<(), AllocError>
    requires { All (λ ch. IsWritable (command.Put (Some ch))) text.now }
    ensures { OnOk result (units.new
        ≡ units.old ++ map bytes_of_command (character_commands text.now)) }
{
    for ch in text {
        push_character(units, *ch)?;
    }
    Ok(())
}

// Appends the unit of a character; one of ASCII is its own byte.
#[inline(always)]
fn push_character(units: &mut PackedUnits, ch: char) -> Result<(), AllocError>
    requires { IsWritable (command.Put (Some ch)) }
    ensures { OnOk result (units.new ≡ units.old ++ bytes_of_command (command.Put (Some ch)) ∷ []) }
{
    match ch {
        ' '..='~' => units.push_byte(ch as u8),
        _ => push_command(units, Command::Put(Some(ch))),
    }
}
