ghost use Rattle.std.specs.Prelude.{◌≡◌};
ghost use Rattle.cue_list_commands.specs.Lines.{pair_line, pair_text};

use hex_digits::upper_hex_digit;
use line21_codes::Pair;

/// A pair as four upper-case hex digits, or `----` where the frame has no slot of the field.
fn digits_of(pair: Option<Pair>) -> [u8; 4]
    ensures { result ≡ pair_text pair }
{
    match pair {
        Some(pair) => [
            upper_hex_digit(pair.a / 16),
            upper_hex_digit(pair.a % 16),
            upper_hex_digit(pair.b / 16),
            upper_hex_digit(pair.b % 16),
        ],
        None => *b"----",
    }
}

/// The line of one frame: the pairs of field 1 and field 2, with a space between.
pub fn line_of(one: Option<Pair>, two: Option<Pair>) -> [u8; 10]
    ensures { result ≡ pair_line one two }
{
    let [a, b, c, d] = digits_of(one);
    let [e, f, g, h] = digits_of(two);
    [a, b, c, d, b' ', e, f, g, h, b'\n']
}
