ghost use Rattle.std.specs.Prelude.{◌≡◌, ◌≤◌, IfSome, bytes_eq};
ghost use Rattle.csv.specs.Records.{fields_of};
ghost use Rattle.cue_form.specs.Numbers.{has_number_length, number_field, number_within};
ghost use Rattle.cue_form.specs.Records.{field};

use csv::ByteRecord;

/// Whether a field is this word.
pub fn is_word(text: &[u8], word: &str) -> bool
    ensures { result ≡ bytes_eq text.now word.now }
{
    text == word.as_bytes()
}

/// The field at a place, counted from 0; none is empty.
pub fn field(row: &ByteRecord, place: usize) -> &[u8]
    ensures { result.now ≡ field (fields_of row.now) place }
{
    row.get(place).unwrap_or(b"")
}

/// The number that a field has: 1 to 10 decimal digits, without a sign and without a leading zero, except 0 itself.
pub fn read_number(text: &[u8]) -> Option<u64>
    ensures { result ≡ number_field text.now }
{
    if !has_number_length(text) {
        return None;
    }
    let mut value = 0u64;
    for byte in text {
        if !byte.is_ascii_digit() {
            return None;
        }
        value = value * 10 + u64::from(*byte - b'0');
    }
    Some(value)
}

fn has_number_length(text: &[u8]) -> bool
    ensures { result ≡ has_number_length text.now }
{
    !text.is_empty() && text.len() <= 10 && (text.len() == 1 || text[0] != b'0')
}

/// A number from low to high.
pub fn read_within(low: u64, high: u64, text: &[u8]) -> Option<u64>
    ensures value { result ≡ number_within low high text.now }
    ensures within { IfSome result (λ n. (low ≤ n) × (n ≤ high)) }
{
    match read_number(text) {
        Some(number) if low <= number && number <= high => Some(number),
        _ => None,
    }
}
