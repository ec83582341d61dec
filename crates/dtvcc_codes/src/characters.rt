ghost use Rattle.std.specs.Prelude.{◌≡◌, ◌==◌, ◌<◌, ◌≤◌, [], ◌∷◌, find};
ghost use Rattle.std.specs.Option.{option_map, option_or};
ghost use Rattle.dtvcc_codes.specs.Characters.{g0_of, g2_of};
ghost use Rattle.dtvcc_codes.specs.CharacterSpellings.{dtvcc_spelling, g0_spelling, g1_spelling, g2_spelling};

use crate::reading::EXT1;
use arrayvec::ArrayVec;

// The character that is shown where a code has none of its own.
pub(crate) const LOW_LINE: char = '_';

// The codes of G2 that have a character.
const G2: [(u8, char); 24] = [
    (0x25, '…'),
    (0x2A, 'Š'),
    (0x2C, 'Œ'),
    (0x30, '█'),
    (0x31, '‘'),
    (0x32, '’'),
    (0x33, '“'),
    (0x34, '”'),
    (0x35, '•'),
    (0x39, '™'),
    (0x3A, 'š'),
    (0x3C, 'œ'),
    (0x3D, '℠'),
    (0x3F, 'Ÿ'),
    (0x76, '⅛'),
    (0x77, '⅜'),
    (0x78, '⅝'),
    (0x79, '⅞'),
    (0x7A, '│'),
    (0x7B, '┐'),
    (0x7C, '└'),
    (0x7D, '─'),
    (0x7E, '┘'),
    (0x7F, '┌'),
];

// The character of a code of G0, 0x20 to 0x7F.
pub(crate) fn g0_char(code: u8) -> char
    ensures { result ≡ g0_of code }
{
    if code == 0x7F { '♪' } else { char::from(code) }
}

// What a code of G2, 0x20 to 0x7F, puts; `None` is the transparent space.
#[tactic(auto, unfolding(crate::specs::Characters::g2_of))]
pub(crate) fn g2_char(code: u8) -> Option<char>
    ensures { result ≡ g2_of code }
{
    if code < 0x22 {
        return None;
    }
    match entry_of_code(&G2, code) {
        Some((_, ch)) => Some(ch),
        None => Some(LOW_LINE),
    }
}

fn entry_of_code(table: &[(u8, char)], code: u8) -> Option<(u8, char)>
    ensures { result ≡ find (λ entry. entry.0 == code) table.now }
{
    table.iter().copied().find(|entry| entry.0 == code)
}

fn entry_of_char(table: &[(u8, char)], ch: char) -> Option<(u8, char)>
    ensures { result ≡ find (λ entry. entry.1 == ch) table.now }
{
    table.iter().copied().find(|entry| entry.1 == ch)
}

/// The spelling of a character by the code sets G0, G1 and G2, the first of these that has it: its code, after EXT1 where it
/// is of G2. `None` exactly where no table has the character. The transparent codes of G2 spell no character
/// (CTA-708-E, 7.1).
#[inline(always)]
#[tactic(auto, unfolding(crate::specs::CharacterSpellings::dtvcc_spelling))]
pub fn spell_dtv(ch: char) -> Option<ArrayVec<u8, 2>>
    ensures spelling { option_map (λ bytes. bytes.items) result ≡ dtvcc_spelling ch }
{
    match ch {
        '♪' => Some(one(0x7F)),
        ' '..='~' => Some(one(ch as u8)),
        '\u{A0}'..='ÿ' => Some(one(ch as u8)),
        _ => match entry_of_char(&G2, ch) {
            Some((code, _)) => Some(extended(code)),
            None => None,
        },
    }
}

fn one(code: u8) -> ArrayVec<u8, 2>
    ensures { result.items ≡ code ∷ [] }
{
    let mut bytes = ArrayVec::new();
    bytes.push(code);
    bytes
}

fn extended(code: u8) -> ArrayVec<u8, 2>
    ensures { result.items ≡ EXT1 ∷ code ∷ [] }
{
    ArrayVec::from_array_in((), [EXT1, code])
}
