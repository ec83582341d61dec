ghost use Rattle.std.specs.Prelude.{◌≡◌, ◌<◌, IsTrue};
ghost use Rattle.line21_codes.specs.Parity.{with_parity, low_bits, is_odd};

/// The two bytes that line 21 carries in one field of one frame, with their parity bits.
#[derive(Clone, Copy, Default, PartialEq, Eq)]
pub struct Pair {
    /// The first byte.
    pub a: u8,
    /// The second byte.
    pub b: u8,
}

/// The null pair: two bytes 00 with odd parity, which a field carries where nothing else is to be sent (CTA-608-E).
pub const NULL_PAIR: Pair = Pair { a: 0x80, b: 0x80 };

impl Pair {
    ghost use Rattle.line21_codes.specs.ControlPairs.{is_control};
    ghost use Rattle.line21_codes.specs.NullPairs.{is_null};

    /// Whether it is the null pair (CTA-608-E).
    #[inline]
    pub fn is_null(self) -> bool
        ensures { result ≡ is_null self }
    {
        self.a == NULL_PAIR.a && self.b == NULL_PAIR.b
    }

    /// Whether the pair is a control pair: both bytes have odd parity, and without it the first is
    /// 0x10 to 0x1F and the second 0x20 to 0x7F (CTA-608-E, 47 CFR 79.101).
    #[tactic(auto, unfolding(crate::specs::ControlPairs::is_control))]
    pub fn is_control(self) -> bool
        ensures { result ≡ is_control self }
    {
        let (first, second) = (self.a % 128, self.b % 128);
        is_odd(self.a) && is_odd(self.b) && first >= 0x10 && first < 0x20 && second >= 0x20
    }
}

/// A byte of a pair has an even number of ones.
#[derive(Clone, Copy, PartialEq, Eq)]
pub struct BadParity;

/// The byte whose low seven bits are `low`, below 128, with the eighth bit that makes the number of
/// its ones odd (CTA-608-E, 47 CFR 79.101).
pub fn parity(low: u8) -> u8
    requires { low < 128 }
    ensures byte { result ≡ with_parity low }
    ensures odd { IsTrue (is_odd result) }
    ensures bits { low_bits result ≡ low }
{
    if is_odd(low) { low } else { low + 0x80 }
}

// Whether the byte has an odd number of ones.
pub(crate) fn is_odd(byte: u8) -> bool
    ensures { result ≡ is_odd byte }
{
    byte.count_ones() % 2 == 1
}
