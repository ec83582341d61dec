ghost use Rattle.std.specs.Prelude.{◌≡◌, IfSome, IsTrue};
ghost use Rattle.ccsuite_c.specs.Cells.{chan_of, colour_number, edge_of, shade_of, text_cell, window_cell, window_seen};
ghost use Rattle.dtvcc_windows.specs.Objects.{is_live, window_of};

use dtvcc_codes::{Fill, Rgb};
use dtvcc_windows::{DCell, Window};
use line21_codes::{Cell, Chan, Colour};

/// A cell of a channel of line 21 as it is displayed: all zeros where it is empty.
#[repr(C)]
#[derive(Clone, Copy, PartialEq, Eq)]
pub struct TextCell {
    /// The Unicode scalar value of the character; 0 where the cell is empty.
    pub ch: u32,
    /// The colour: 0 white, 1 green, 2 blue, 3 cyan, 4 red, 5 yellow, 6 magenta.
    pub colour: u8,
    /// 1 where it is in italics.
    pub italic: u8,
    /// 1 where it is underlined.
    pub underline: u8,
    /// Zero, for a field to come.
    pub reserved: u8,
}

/// A colour with its opacity (CTA-708-E, SetPenColor and SetWindowAttributes).
#[repr(C)]
#[derive(Clone, Copy, PartialEq, Eq)]
pub struct Shade {
    /// 0 solid, 1 flash, 2 translucent, 3 transparent.
    pub opacity: u8,
    /// Red, 0 to 3.
    pub red: u8,
    /// Green, 0 to 3.
    pub green: u8,
    /// Blue, 0 to 3.
    pub blue: u8,
}

/// A colour without an opacity (CTA-708-E, SetPenColor and SetWindowAttributes).
#[repr(C)]
#[derive(Clone, Copy, PartialEq, Eq)]
pub struct Edge {
    /// Red, 0 to 3.
    pub red: u8,
    /// Green, 0 to 3.
    pub green: u8,
    /// Blue, 0 to 3.
    pub blue: u8,
}

/// A cell of a window of a service: all zeros where it is empty (CTA-708-E, pens).
#[repr(C)]
#[derive(Clone, Copy, PartialEq, Eq)]
pub struct WindowCell {
    /// The Unicode scalar value of the character; 0 where the cell is empty.
    pub ch: u32,
    /// 0 small, 1 standard, 2 large; at most 3.
    pub size: u8,
    /// 0 default, 1 monospaced serif, 2 proportional serif, 3 monospaced sans, 4 proportional sans, 5 casual, 6 cursive, 7 small capitals.
    pub font: u8,
    /// The text tag, 0 dialogue, to 15.
    pub tag: u8,
    /// 0 subscript, 1 normal, 2 superscript; at most 3.
    pub offset: u8,
    /// 1 where it is in italics.
    pub italic: u8,
    /// 1 where it is underlined.
    pub underline: u8,
    /// The edges: 0 none, 1 raised, 2 depressed, 3 uniform, 4 left shadow, 5 right shadow; at most 7.
    pub edge: u8,
    /// The character's colour.
    pub foreground: Shade,
    /// The colour after it.
    pub background: Shade,
    /// The colour of its edges.
    pub edge_colour: Edge,
    /// Zeros, for fields to come.
    pub reserved: [u8; 2],
}

/// A window of a service (CTA-708-E, DefineWindow and SetWindowAttributes).
#[repr(C)]
#[derive(Clone, Copy, PartialEq, Eq)]
pub struct WindowSeen {
    /// 1 where it is shown.
    pub visible: u8,
    /// The number of rows, 1 to 16.
    pub rows: u8,
    /// The number of columns, 1 to 64.
    pub columns: u8,
    /// 1 where the number of rows stays as it is.
    pub row_lock: u8,
    /// 1 where the number of columns stays as it is.
    pub column_lock: u8,
    /// 0, the highest, to 7.
    pub priority: u8,
    /// Which point of the window is its anchor: 0 to 8, from the upper left to the lower right; at most 15.
    pub anchor: u8,
    /// 1 where the anchor's position is given in hundredths of the picture, and not in cells.
    pub relative: u8,
    /// The anchor's vertical position, 0 to 127.
    pub vertical: u8,
    /// The anchor's horizontal position, 0 to 255.
    pub horizontal: u8,
    /// 0 left, 1 right, 2 centre, 3 full.
    pub justify: u8,
    /// The direction in which characters are printed: 0 left to right, 1 right to left, 2 top to bottom, 3 bottom to top.
    pub print: u8,
    /// The direction in which text scrolls, numbered as `print` is.
    pub scroll: u8,
    /// 1 where words are wrapped.
    pub wrap: u8,
    /// The display effect: 0 snap, 1 fade, 2 wipe; at most 3.
    pub effect: u8,
    /// The direction of a wipe, numbered as `print` is.
    pub effect_direction: u8,
    /// The speed of a fade or a wipe, in half seconds: 0 to 15.
    pub effect_speed: u8,
    /// The border: 0 none, 1 raised, 2 depressed, 3 uniform, 4 left shadow, 5 right shadow; at most 7.
    pub border: u8,
    /// The window's fill.
    pub fill: Shade,
    /// The border's colour.
    pub border_colour: Edge,
    /// Zeros, for fields to come.
    pub reserved: [u8; 7],
}

/// What C sees of a cell of a channel.
pub(crate) fn text_cell(cell: Option<Cell>) -> TextCell
    ensures { result ≡ text_cell cell }
{
    match cell {
        None => TextCell {
            ch: 0,
            colour: 0,
            italic: 0,
            underline: 0,
            reserved: 0,
        },
        Some(cell) => TextCell {
            ch: u32::from(cell.ch),
            colour: colour_number(cell.style.colour),
            italic: u8::from(cell.style.italic),
            underline: u8::from(cell.style.underline),
            reserved: 0,
        },
    }
}

fn colour_number(colour: Colour) -> u8
    ensures { result ≡ colour_number colour }
{
    match colour {
        Colour::White => 0,
        Colour::Green => 1,
        Colour::Blue => 2,
        Colour::Cyan => 3,
        Colour::Red => 4,
        Colour::Yellow => 5,
        Colour::Magenta => 6,
    }
}

fn shade_of(fill: Fill) -> Shade
    ensures { result ≡ shade_of fill }
{
    Shade {
        opacity: fill.opacity,
        red: fill.r,
        green: fill.g,
        blue: fill.b,
    }
}

fn edge_of(colour: Rgb) -> Edge
    ensures { result ≡ edge_of colour }
{
    Edge {
        red: colour.r,
        green: colour.g,
        blue: colour.b,
    }
}

/// What C sees of a cell of a window.
pub(crate) fn window_cell(cell: Option<DCell>) -> WindowCell
    ensures { result ≡ window_cell cell }
{
    match cell {
        None => WindowCell {
            ch: 0,
            size: 0,
            font: 0,
            tag: 0,
            offset: 0,
            italic: 0,
            underline: 0,
            edge: 0,
            foreground: NO_SHADE,
            background: NO_SHADE,
            edge_colour: NO_EDGE,
            reserved: [0; 2],
        },
        Some(cell) => WindowCell {
            ch: u32::from(cell.ch),
            size: cell.pen.size,
            font: cell.pen.font,
            tag: cell.pen.tag,
            offset: cell.pen.offset,
            italic: u8::from(cell.pen.italic),
            underline: u8::from(cell.pen.underline),
            edge: cell.pen.edge,
            foreground: shade_of(cell.colors.fg),
            background: shade_of(cell.colors.bg),
            edge_colour: edge_of(cell.colors.edge),
            reserved: [0; 2],
        },
    }
}

const NO_SHADE: Shade = Shade {
    opacity: 0,
    red: 0,
    green: 0,
    blue: 0,
};

const NO_EDGE: Edge = Edge {
    red: 0,
    green: 0,
    blue: 0,
};

/// What C sees of a window.
pub(crate) fn window_seen(window: &Window) -> WindowSeen
    requires { IsTrue (is_live window.now) }
    ensures { IfSome (window_of window.now) (λ state. result ≡ window_seen state) }
{
    let definition = window.definition();
    let attributes = window.attributes();
    WindowSeen {
        visible: u8::from(window.visible()),
        rows: definition.rows,
        columns: definition.cols,
        row_lock: u8::from(definition.row_lock),
        column_lock: u8::from(definition.col_lock),
        priority: definition.priority,
        anchor: definition.anchor,
        relative: u8::from(definition.relative),
        vertical: definition.av,
        horizontal: definition.ah,
        justify: attributes.justify,
        print: attributes.print,
        scroll: attributes.scroll,
        wrap: u8::from(attributes.wrap),
        effect: attributes.effect,
        effect_direction: attributes.effect_dir,
        effect_speed: attributes.effect_speed,
        border: attributes.border_kind,
        fill: shade_of(attributes.fill),
        border_colour: edge_of(attributes.border),
        reserved: [0; 7],
    }
}

/// The channel of line 21 with this number, 1 to 4.
pub(crate) fn chan_of(channel: u32) -> Option<Chan>
    ensures { result ≡ chan_of channel }
{
    match channel {
        1 => Some(Chan::Cc1),
        2 => Some(Chan::Cc2),
        3 => Some(Chan::Cc3),
        4 => Some(Chan::Cc4),
        _ => None,
    }
}
