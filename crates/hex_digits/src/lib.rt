//! Hex digits: the values of digits in either case, and the digits that are written.
#![tactic(auto)]

ghost use Rattle.std.specs.Prelude.{◌≡◌, ◌<◌, IfSome};
ghost use Rattle.hex_digits.specs.HexDigits.{hex_value, lower_hex_digit, upper_hex_digit};

pub mod laws;

// In VALUES, for a byte that is no hex digit.
const NONE: u8 = 0xFF;

// The value of each byte as a hex digit, 16 bytes to a row; the values of a to f are written in lower case too.
const VALUES: [u8; 256] = [
    NONE, NONE, NONE, NONE, NONE, NONE, NONE, NONE, NONE, NONE, NONE, NONE, NONE, NONE, NONE, NONE,
    NONE, NONE, NONE, NONE, NONE, NONE, NONE, NONE, NONE, NONE, NONE, NONE, NONE, NONE, NONE, NONE,
    NONE, NONE, NONE, NONE, NONE, NONE, NONE, NONE, NONE, NONE, NONE, NONE, NONE, NONE, NONE, NONE,
    0x00, 0x01, 0x02, 0x03, 0x04, 0x05, 0x06, 0x07, 0x08, 0x09, NONE, NONE, NONE, NONE, NONE, NONE,
    NONE, 0x0A, 0x0B, 0x0C, 0x0D, 0x0E, 0x0F, NONE, NONE, NONE, NONE, NONE, NONE, NONE, NONE, NONE,
    NONE, NONE, NONE, NONE, NONE, NONE, NONE, NONE, NONE, NONE, NONE, NONE, NONE, NONE, NONE, NONE,
    NONE, 0x0a, 0x0b, 0x0c, 0x0d, 0x0e, 0x0f, NONE, NONE, NONE, NONE, NONE, NONE, NONE, NONE, NONE,
    NONE, NONE, NONE, NONE, NONE, NONE, NONE, NONE, NONE, NONE, NONE, NONE, NONE, NONE, NONE, NONE,
    NONE, NONE, NONE, NONE, NONE, NONE, NONE, NONE, NONE, NONE, NONE, NONE, NONE, NONE, NONE, NONE,
    NONE, NONE, NONE, NONE, NONE, NONE, NONE, NONE, NONE, NONE, NONE, NONE, NONE, NONE, NONE, NONE,
    NONE, NONE, NONE, NONE, NONE, NONE, NONE, NONE, NONE, NONE, NONE, NONE, NONE, NONE, NONE, NONE,
    NONE, NONE, NONE, NONE, NONE, NONE, NONE, NONE, NONE, NONE, NONE, NONE, NONE, NONE, NONE, NONE,
    NONE, NONE, NONE, NONE, NONE, NONE, NONE, NONE, NONE, NONE, NONE, NONE, NONE, NONE, NONE, NONE,
    NONE, NONE, NONE, NONE, NONE, NONE, NONE, NONE, NONE, NONE, NONE, NONE, NONE, NONE, NONE, NONE,
    NONE, NONE, NONE, NONE, NONE, NONE, NONE, NONE, NONE, NONE, NONE, NONE, NONE, NONE, NONE, NONE,
    NONE, NONE, NONE, NONE, NONE, NONE, NONE, NONE, NONE, NONE, NONE, NONE, NONE, NONE, NONE, NONE,
];

/// The value of a hex digit of either case; None exactly where the byte is no hex digit.
#[inline]
pub fn hex_value(byte: u8) -> Option<u8>
    ensures value { result ≡ hex_value byte }
    ensures small { IfSome result (λ value. value < 16) }
{
    let value = VALUES[byte as usize];
    if value == NONE { None } else { Some(value) }
}

/// The upper-case hex digit of a value below 16.
pub fn upper_hex_digit(value: u8) -> u8
    requires { value < 16 }
    ensures { result ≡ upper_hex_digit value }
{
    if value < 10 {
        b'0' + value
    } else {
        b'A' - 10 + value
    }
}

/// The lower-case hex digit of a value below 16.
pub fn lower_hex_digit(value: u8) -> u8
    requires { value < 16 }
    ensures { result ≡ lower_hex_digit value }
{
    if value < 10 {
        b'0' + value
    } else {
        b'a' - 10 + value
    }
}
