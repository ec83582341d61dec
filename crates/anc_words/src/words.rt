ghost use Rattle.std.specs.Prelude.{◌≡◌, ◌<◌, ◌%◌};
ghost use Rattle.anc_words.specs.CaptionWords.{low_of, word_of};
ghost use Rattle.anc_words.specs.Reading.{is_eight_bit};
ghost use Rattle.anc_words.specs.Writing.{eight_bit_word, nine_bit_word, word_bytes};

/// A word of ancillary data: ten bits (SMPTE ST 291-1).
#[derive(Clone, Copy)]
pub(crate) struct Word {
    pub(crate) value: u16,
    ghost ten_bits: { value < 1024 },
}

impl Word {
    /// The ancillary data flag, with which each packet begins.
    pub(crate) const FLAG: [Word; 3] = [
        Word { value: 0x000 },
        Word { value: 0x3FF },
        Word { value: 0x3FF },
    ];

    /// The 8-bit word of a byte: bit 8 is even parity of bits 7 to 0, and bit 9 is the inverse of bit 8.
    #[inline]
    pub(crate) fn eight_bit(byte: u8) -> Word
        ensures { result.value ≡ eight_bit_word byte }
    {
        let high_bits = if byte.count_ones() % 2 == 1 {
            0x100
        } else {
            0x200
        };
        Word {
            value: u16::from(byte) + high_bits,
        }
    }

    /// Whether this is the 8-bit word of its bits 7 to 0: bits 8 and 9 are as they must be, and there are none above.
    #[inline]
    pub(crate) fn is_eight_bit(value: u16) -> bool
        ensures { result ≡ is_eight_bit value }
    {
        value == Word::eight_bit((value % 256) as u8).value
    }

    /// The checksum word of words with this sum: its low nine bits are the sum's, and bit 9 is the inverse of
    /// bit 8.
    #[inline]
    pub(crate) fn checksum(sum: u32) -> Word
        ensures { result.value ≡ nine_bit_word (sum % 512) }
    {
        let nine_bits = (sum % 512) as u16;
        let bit_9 = if nine_bits < 0x100 { 0x200 } else { 0x000 };
        Word {
            value: nine_bits + bit_9,
        }
    }

    /// The word as two bytes, the high one first.
    #[inline]
    pub(crate) fn bytes(self) -> [u8; 2]
        ensures { result ≡ word_bytes self.value }
    {
        [(self.value / 256) as u8, (self.value % 256) as u8]
    }
}

/// The word of two bytes, the high one first.
#[inline]
pub(crate) fn value(bytes: [u8; 2]) -> u16
    ensures { result ≡ word_of bytes }
{
    u16::from(bytes[0]) * 256 + u16::from(bytes[1])
}

/// The low one of a word's two bytes. It is taken from the word, since LLVM reads words one after another in one load,
/// and every second byte in a load each.
#[inline]
pub(crate) fn low_byte(bytes: [u8; 2]) -> u8
    ensures { result ≡ low_of bytes }
{
    (value(bytes) % 256) as u8
}
