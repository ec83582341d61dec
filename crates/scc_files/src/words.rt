ghost use Rattle.std.specs.Prelude.{◌≡◌};
ghost use Rattle.scc_files.specs.Words.{pair_word};

use hex_digits::lower_hex_digit;
use line21_codes::Pair;

/// A pair's word: four lower-case hex digits.
pub fn word(pair: Pair) -> [u8; 4]
    ensures { result ≡ pair_word pair }
{
    [
        lower_hex_digit(pair.a / 16),
        lower_hex_digit(pair.a % 16),
        lower_hex_digit(pair.b / 16),
        lower_hex_digit(pair.b % 16),
    ]
}
