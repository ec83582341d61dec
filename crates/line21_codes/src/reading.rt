ghost use Rattle.std.specs.Prelude.{◌≡◌, ◌<◌, ◌≤◌, ◌↔◌, IsOk, IfOk, OnErr, IsTrue};
ghost use Rattle.line21_codes.specs.Parity.{has_odd_parity};
ghost use Rattle.line21_codes.specs.MiscellaneousCodes.{miscellaneous_at};
ghost use Rattle.line21_codes.specs.PreambleCodes.{preamble_at};
ghost use Rattle.line21_codes.specs.MidRowCodes.{mid_row_at};
ghost use Rattle.line21_codes.specs.TabOffsets.{tab_at};
ghost use Rattle.line21_codes.specs.ControlPairs.{control_at};
ghost use Rattle.line21_codes.specs.Reading.{code_at, code_of};
ghost use Rattle.line21_codes.specs.declared.codes.Code.TheVariants.{Null};

use crate::codes::{Code, Control};
use crate::pairs::{BadParity, Pair, is_odd};
use crate::styles::{Colour, Style};

/// The code of a pair of either field. `BadParity` exactly where a byte has an even number of ones:
/// a receiver takes such a pair for null (CTA-608-E, 47 CFR 79.101).
#[tactic(auto, unfolding(crate::specs::Reading::code_of))]
pub fn read_pair(pair: Pair) -> Result<Code, BadParity>
    ensures odd { IsOk result ↔ IsTrue (has_odd_parity pair) }
    ensures code { IfOk result (λ code. code ≡ code_of pair) }
    ensures null { OnErr result (code_of pair ≡ Null) }
{
    if is_odd(pair.a) && is_odd(pair.b) {
        Ok(code(pair.a % 128, pair.b % 128))
    } else {
        Err(BadParity)
    }
}

fn code(first: u8, second: u8) -> Code
    requires first { first < 128 }
    requires second { second < 128 }
    ensures { result ≡ code_at first second }
{
    match first {
        0x10..0x20 if second < 0x20 => Code::Null,
        0x10..0x18 => Code::Control {
            second: false,
            control: control(first, second),
        },
        0x18..0x20 => Code::Control {
            second: true,
            control: control(first - 8, second),
        },
        0x01..0x10 => Code::Xds(first, second),
        _ if first == 0 && second == 0 => Code::Null,
        _ => Code::Text(first, second),
    }
}

fn control(first: u8, second: u8) -> Control
    requires first_from { 0x10 ≤ first }
    requires first_to { first < 0x18 }
    requires second_from { 0x20 ≤ second }
    requires second_to { second < 128 }
    ensures { result ≡ control_at first second }
{
    match first {
        _ if second >= 0x40 => preamble(first, second),
        0x11 if second < 0x30 => mid_row(second),
        0x11 => Control::Special(second),
        0x12 | 0x13 => Control::Extended {
            set: first,
            byte: second,
        },
        0x14 | 0x15 => miscellaneous(second),
        0x17 => tab(second),
        _ => Control::Skipped,
    }
}

fn miscellaneous(second: u8) -> Control
    requires { 0x20 ≤ second }
    ensures { result ≡ miscellaneous_at second }
{
    match second {
        0x20 => Control::Rcl,
        0x21 => Control::Bs,
        0x24 => Control::Der,
        0x25 => Control::Ru(2),
        0x26 => Control::Ru(3),
        0x27 => Control::Ru(4),
        0x28 => Control::Fon,
        0x29 => Control::Rdc,
        0x2A => Control::Tr,
        0x2B => Control::Rtd,
        0x2C => Control::Edm,
        0x2D => Control::Cr,
        0x2E => Control::Enm,
        0x2F => Control::Eoc,
        _ => Control::Skipped,
    }
}

fn tab(second: u8) -> Control
    requires { 0x20 ≤ second }
    ensures { result ≡ tab_at second }
{
    match second {
        0x21..=0x23 => Control::Tab(second - 0x20),
        _ => Control::Skipped,
    }
}

// The colours of mid-row codes; the last is italics.
const MID_ROW_COLOURS: [Option<Colour>; 8] = [
    Some(Colour::White),
    Some(Colour::Green),
    Some(Colour::Blue),
    Some(Colour::Cyan),
    Some(Colour::Red),
    Some(Colour::Yellow),
    Some(Colour::Magenta),
    None,
];

fn mid_row(second: u8) -> Control
    requires from { 0x20 ≤ second }
    requires to { second < 0x30 }
    ensures { result ≡ mid_row_at second }
{
    Control::MidRow {
        colour: MID_ROW_COLOURS[usize::from((second - 0x20) / 2)],
        underline: second % 2 == 1,
    }
}

// The rows of the first bytes 0x10 to 0x17, below and from a second byte 0x60; 0 is no row.
const PREAMBLE_ROWS: [(u8, u8); 8] = [
    (11, 0),
    (1, 2),
    (3, 4),
    (12, 13),
    (14, 15),
    (5, 6),
    (7, 8),
    (9, 10),
];

// Column, colour and italics of a preamble.
const PREAMBLE_SETTINGS: [(u8, Colour, bool); 16] = [
    (0, Colour::White, false),
    (0, Colour::Green, false),
    (0, Colour::Blue, false),
    (0, Colour::Cyan, false),
    (0, Colour::Red, false),
    (0, Colour::Yellow, false),
    (0, Colour::Magenta, false),
    (0, Colour::White, true),
    (0, Colour::White, false),
    (4, Colour::White, false),
    (8, Colour::White, false),
    (12, Colour::White, false),
    (16, Colour::White, false),
    (20, Colour::White, false),
    (24, Colour::White, false),
    (28, Colour::White, false),
];

fn preamble(first: u8, second: u8) -> Control
    requires first_from { 0x10 ≤ first }
    requires first_to { first < 0x18 }
    ensures { result ≡ preamble_at first second }
{
    let (upper, lower) = PREAMBLE_ROWS[usize::from(first - 0x10)];
    let row = if second < 0x60 { upper } else { lower };
    if row == 0 {
        return Control::Skipped;
    }
    let (col, colour, italic) = PREAMBLE_SETTINGS[usize::from(second % 32 / 2)];
    let style = Style {
        colour,
        italic,
        underline: second % 2 == 1,
    };
    Control::Preamble { row, col, style }
}
