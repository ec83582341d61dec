ghost use Rattle.std.specs.Prelude.{◌≡◌, ◌<◌, ◌≤◌};
ghost use Rattle.line21_codes.specs.Channels.{numbered_field};
ghost use Rattle.line21_codes.specs.MiscellaneousCodes.{miscellaneous_first};
ghost use Rattle.line21_codes.specs.Reading.{code_of};
ghost use Rattle.line21_codes.specs.Writable.{IsWritable, IsWritableControl, IsPreamble};
ghost use Rattle.line21_codes.specs.Writing.{underline_bit, colour_bits, mid_row_bits, indent_bits, preamble_bits, row_bytes_at, preamble_bytes, control_bytes, code_bytes, pair_of_code};

use crate::channels::FieldNumber;
use crate::codes::{Code, Control};
use crate::pairs::{Pair, parity};
use crate::styles::{Colour, Style};

/// The pair with which a field writes a code (CTA-608-E, 47 CFR 79.101). Miscellaneous codes have
/// first byte 0x14 (0x1C in data channel 2) in field 1 and 0x15 (0x1D) in field 2. White without
/// italics is written with an indent, also at column 0. `read_pair` gives the code back.
#[tactic(auto, unfolding(crate::specs::Writing::pair_of_code))]
pub fn write_code(code: Code, second_field: bool) -> Pair
    requires { IsWritable code }
    ensures pair { result ≡ pair_of_code (numbered_field second_field) code }
    ensures code { code_of result ≡ code }
{
    let (first, second) = bytes_of(code, FieldNumber::from_second(second_field));
    Pair {
        a: parity(first),
        b: parity(second),
    }
}

fn bytes_of(code: Code, in_field: FieldNumber) -> (u8, u8)
    requires { IsWritable code }
    ensures bytes { result ≡ code_bytes in_field code }
    ensures first { result.0 < 128 }
    ensures second { result.1 < 128 }
{
    match code {
        Code::Null => (0, 0),
        Code::Text(first, second) => (first, second),
        Code::Xds(first, second) => (first, second),
        Code::Control { second, control } => {
            let (first, byte) = control_bytes_of(control, in_field);
            (if second { first + 8 } else { first }, byte)
        }
    }
}

fn control_bytes_of(control: Control, in_field: FieldNumber) -> (u8, u8)
    requires { IsWritableControl control }
    ensures bytes { result ≡ control_bytes in_field control }
    ensures first { result.0 < 0x18 }
    ensures second { result.1 < 128 }
{
    let miscellaneous = miscellaneous_first_of(in_field);
    match control {
        Control::Rcl => (miscellaneous, 0x20),
        Control::Bs => (miscellaneous, 0x21),
        Control::Der => (miscellaneous, 0x24),
        Control::Ru(rows) => (miscellaneous, 0x23 + rows),
        Control::Fon => (miscellaneous, 0x28),
        Control::Rdc => (miscellaneous, 0x29),
        Control::Tr => (miscellaneous, 0x2A),
        Control::Rtd => (miscellaneous, 0x2B),
        Control::Edm => (miscellaneous, 0x2C),
        Control::Cr => (miscellaneous, 0x2D),
        Control::Enm => (miscellaneous, 0x2E),
        Control::Eoc => (miscellaneous, 0x2F),
        Control::Tab(columns) => (0x17, 0x20 + columns),
        Control::MidRow { colour, underline } => {
            (
                0x11,
                0x20 + mid_row_bits_of(colour) + underline_bit_of(underline),
            )
        }
        Control::Preamble { row, col, style } => preamble_bytes_of(row, col, style),
        Control::Special(byte) => (0x11, byte),
        Control::Extended { set, byte } => (set, byte),
        Control::Skipped => unreachable!(),
    }
}

fn miscellaneous_first_of(in_field: FieldNumber) -> u8
    ensures is { result ≡ miscellaneous_first in_field }
    ensures below { result < 0x18 }
{
    match in_field {
        FieldNumber::One => 0x14,
        FieldNumber::Two => 0x15,
    }
}

// The first byte and the lowest second byte of the preambles of the rows 1 to 15.
const ROW_BYTES: [(u8, u8); 15] = [
    (0x11, 0x40),
    (0x11, 0x60),
    (0x12, 0x40),
    (0x12, 0x60),
    (0x15, 0x40),
    (0x15, 0x60),
    (0x16, 0x40),
    (0x16, 0x60),
    (0x17, 0x40),
    (0x17, 0x60),
    (0x10, 0x40),
    (0x13, 0x40),
    (0x13, 0x60),
    (0x14, 0x40),
    (0x14, 0x60),
];

fn preamble_bytes_of(row: u8, col: u8, style: Style) -> (u8, u8)
    requires { IsPreamble row col style }
    ensures bytes { result ≡ preamble_bytes row col style }
    ensures first { result.0 < 0x18 }
    ensures second { result.1 < 128 }
{
    let (first, second) = row_bytes_of(row);
    (first, second + preamble_bits_of(col, style))
}

fn row_bytes_of(row: u8) -> (u8, u8)
    requires from { 1 ≤ row }
    requires to { row ≤ 15 }
    ensures bytes { result ≡ row_bytes_at row }
    ensures first { result.0 < 0x18 }
    ensures second { result.1 ≤ 0x60 }
{
    ROW_BYTES[usize::from(row - 1)]
}

fn preamble_bits_of(col: u8, style: Style) -> u8
    requires { col ≤ 28 }
    ensures bits { result ≡ preamble_bits col style }
    ensures small { result < 0x20 }
{
    let bits = if style.italic {
        ITALIC_BITS
    } else {
        match style.colour {
            Colour::White => 0x10 + col / 2,
            colour => colour_bits_of(colour),
        }
    };
    bits + underline_bit_of(style.underline)
}

const ITALIC_BITS: u8 = 0x0E;

fn mid_row_bits_of(colour: Option<Colour>) -> u8
    ensures bits { result ≡ mid_row_bits colour }
    ensures small { result < 0x0F }
{
    match colour {
        Some(colour) => colour_bits_of(colour),
        None => ITALIC_BITS,
    }
}

fn colour_bits_of(colour: Colour) -> u8
    ensures bits { result ≡ colour_bits colour }
    ensures small { result < 0x0E }
{
    match colour {
        Colour::White => 0x00,
        Colour::Green => 0x02,
        Colour::Blue => 0x04,
        Colour::Cyan => 0x06,
        Colour::Red => 0x08,
        Colour::Yellow => 0x0A,
        Colour::Magenta => 0x0C,
    }
}

fn underline_bit_of(underline: bool) -> u8
    ensures bit { result ≡ underline_bit underline }
    ensures small { result ≤ 1 }
{
    u8::from(underline)
}
