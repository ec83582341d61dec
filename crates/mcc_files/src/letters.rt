ghost use Rattle.std.specs.Prelude.{◌≡◌, None, Some, MatchOption};
ghost use Rattle.mcc_files.specs.Letters.{letter_bytes};

/// Nine triplets that don't count.
const FILLERS: [u8; 27] = [
    0xFA, 0, 0, 0xFA, 0, 0, 0xFA, 0, 0, 0xFA, 0, 0, 0xFA, 0, 0, 0xFA, 0, 0, 0xFA, 0, 0, 0xFA, 0, 0,
    0xFA, 0, 0,
];

/// The bytes for which a letter stands. `G` to `O` are 1 to 9 times FA 00 00, and `P`, `Q` and `R` are FB, FC and FD 80 80. `S`
/// is 96 69, `T` is 61 01, `U` is E1 00 00 00, and `Z` is 00. None exactly where the byte is no such letter.
pub fn letter_bytes(letter: u8) -> Option<&'static [u8]>
    ensures { MatchOption result (letter_bytes letter ≡ None)
        (λ bytes. letter_bytes letter ≡ Some bytes.now) }
{
    match letter {
        b'G' => Some(&FILLERS[..3]),
        b'H' => Some(&FILLERS[..6]),
        b'I' => Some(&FILLERS[..9]),
        b'J' => Some(&FILLERS[..12]),
        b'K' => Some(&FILLERS[..15]),
        b'L' => Some(&FILLERS[..18]),
        b'M' => Some(&FILLERS[..21]),
        b'N' => Some(&FILLERS[..24]),
        b'O' => Some(&FILLERS),
        b'P' => Some(&[0xFB, 0x80, 0x80]),
        b'Q' => Some(&[0xFC, 0x80, 0x80]),
        b'R' => Some(&[0xFD, 0x80, 0x80]),
        b'S' => Some(&[0x96, 0x69]),
        b'T' => Some(&[0x61, 0x01]),
        b'U' => Some(&[0xE1, 0x00, 0x00, 0x00]),
        b'Z' => Some(&[0x00]),
        _ => None,
    }
}
