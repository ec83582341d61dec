ghost use Rattle.std.specs.Prelude.{◌≡◌, ◌≤◌, true};
ghost use Rattle.time_codes.specs.Texts.{HasTwoDigits, is_digit, text_of, time_of_text, two_digit_number};

use crate::time_code::TimeCode;

// Whether the byte is a decimal digit.
fn is_digit(byte: u8) -> bool
    ensures { result ≡ is_digit byte }
{
    b'0' <= byte && byte <= b'9'
}

// The number of two decimal digits.
fn number(ten: u8, one: u8) -> u8
    requires ten { is_digit ten ≡ true }
    requires one { is_digit one ≡ true }
    ensures { result ≡ two_digit_number ten one }
{
    10 * (ten - b'0') + (one - b'0')
}

/// The time code of a text `HH:MM:SS:FF`, or `HH:MM:SS;FF` for drop frame, two digits each; None exactly where the text is
/// another one. No frame may have the time code: `frame_of` says so.
pub fn read_time(text: &str) -> Option<TimeCode>
    ensures { result ≡ time_of_text text.now }
{
    read_time_bytes(text.as_bytes())
}

/// The time code of a text, as `read_time` gives it, from the text's bytes.
pub fn read_time_bytes(text: &[u8]) -> Option<TimeCode>
    ensures { result ≡ time_of_text text.now }
{
    match *text {
        [a, b, b':', c, d, b':', e, f, mark, g, h]
            if is_digit(a)
                && is_digit(b)
                && is_digit(c)
                && is_digit(d)
                && is_digit(e)
                && is_digit(f)
                && (mark == b':' || mark == b';')
                && is_digit(g)
                && is_digit(h) => {
            Some(TimeCode {
                h: number(a, b),
                m: number(c, d),
                s: number(e, f),
                f: number(g, h),
                drop_frame: mark == b';',
            })
        }
        _ => None,
    }
}

/// The text of a time code whose numbers are below 100: `HH:MM:SS:FF`, or `HH:MM:SS;FF` for drop frame.
pub fn time_text(t: TimeCode) -> [u8; 11]
    requires { HasTwoDigits t }
    ensures { result ≡ text_of t }
{
    let mark = if t.drop_frame { b';' } else { b':' };
    [
        b'0' + t.h / 10,
        b'0' + t.h % 10,
        b':',
        b'0' + t.m / 10,
        b'0' + t.m % 10,
        b':',
        b'0' + t.s / 10,
        b'0' + t.s % 10,
        mark,
        b'0' + t.f / 10,
        b'0' + t.f % 10,
    ]
}
