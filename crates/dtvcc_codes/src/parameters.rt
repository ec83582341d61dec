//! The fields of the commands' parameter bytes.

ghost use Rattle.std.specs.Prelude.{◌≡◌, ◌<◌, ◌≤◌, length};
ghost use Rattle.dtvcc_codes.specs.Parameters.{definition, fill_of, is_set, pen_attributes, pen_colors, rgb_of, window_attributes};
ghost use Rattle.dtvcc_codes.specs.Spellable.{IsDefinition, IsFill, IsPenAttr, IsPenColors, IsRgb, IsWinAttr};

use crate::pens::{Fill, PenAttr, PenColors, Rgb};
use crate::windows::{Definition, WinAttr};

// Whether the bit of this value is set.
fn is_set(byte: u8, bit: u8) -> bool
    requires { 0 < bit }
    ensures { result ≡ is_set byte bit }
{
    byte / bit % 2 == 1
}

fn rgb_of(byte: u8) -> Rgb
    ensures says { result ≡ rgb_of byte }
    ensures fits { IsRgb result }
{
    Rgb {
        r: byte / 16 % 4,
        g: byte / 4 % 4,
        b: byte % 4,
    }
}

fn fill_of(byte: u8) -> Fill
    ensures says { result ≡ fill_of byte }
    ensures fits { IsFill result }
{
    Fill {
        opacity: byte / 64,
        r: byte / 16 % 4,
        g: byte / 4 % 4,
        b: byte % 4,
    }
}

pub(crate) fn pen_attributes(parameters: &[u8]) -> PenAttr
    requires { 2 ≤ length parameters.now }
    ensures says { result ≡ pen_attributes parameters.now }
    ensures fits { IsPenAttr result }
{
    let first = parameters[0];
    let second = parameters[1];
    PenAttr {
        size: first % 4,
        font: second % 8,
        tag: first / 16,
        offset: first / 4 % 4,
        italic: is_set(second, 0x80),
        underline: is_set(second, 0x40),
        edge: second / 8 % 8,
    }
}

pub(crate) fn pen_colors(parameters: &[u8]) -> PenColors
    requires { 3 ≤ length parameters.now }
    ensures says { result ≡ pen_colors parameters.now }
    ensures fits { IsPenColors result }
{
    PenColors {
        fg: fill_of(parameters[0]),
        bg: fill_of(parameters[1]),
        edge: rgb_of(parameters[2]),
    }
}

pub(crate) fn window_attributes(parameters: &[u8]) -> WinAttr
    requires { 4 ≤ length parameters.now }
    ensures says { result ≡ window_attributes parameters.now }
    ensures fits { IsWinAttr result }
{
    let second = parameters[1];
    let third = parameters[2];
    let fourth = parameters[3];
    WinAttr {
        justify: third % 4,
        print: third / 16 % 4,
        scroll: third / 4 % 4,
        wrap: is_set(third, 0x40),
        effect: fourth % 4,
        effect_dir: fourth / 4 % 4,
        effect_speed: fourth / 16,
        fill: fill_of(parameters[0]),
        border_kind: third / 128 * 4 + second / 64,
        border: rgb_of(second),
    }
}

pub(crate) fn definition(id: u8, parameters: &[u8]) -> Definition
    requires window { id < 8 }
    requires size { 6 ≤ length parameters.now }
    ensures says { result ≡ definition id parameters.now }
    ensures fits { IsDefinition result }
{
    let first = parameters[0];
    let second = parameters[1];
    let fourth = parameters[3];
    let sixth = parameters[5];
    Definition {
        id,
        visible: is_set(first, 0x20),
        row_lock: is_set(first, 0x10),
        col_lock: is_set(first, 0x08),
        priority: first % 8,
        relative: is_set(second, 0x80),
        av: second % 128,
        ah: parameters[2],
        anchor: fourth / 16,
        rows: fourth % 16 + 1,
        cols: parameters[4] % 64 + 1,
        ws: sixth / 8 % 8,
        ps: sixth % 8,
    }
}
