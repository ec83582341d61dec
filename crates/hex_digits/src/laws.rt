//! Laws of the definitions: functions without a body, whose contract is the law.

ghost use Rattle.std.specs.Prelude.{◌≡◌, ◌<◌, ℕ, Some};
ghost use Rattle.hex_digits.specs.HexDigits.{hex_value, lower_hex_digit, upper_hex_digit};

/// A digit that is written has its value.
pub fn written_digits_are_read()
    ensures upper { (value : ℕ) → value < 16 → hex_value (upper_hex_digit value) ≡ Some value }
    ensures lower { (value : ℕ) → value < 16 → hex_value (lower_hex_digit value) ≡ Some value }
{}
