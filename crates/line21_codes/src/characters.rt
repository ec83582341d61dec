ghost use Rattle.std.specs.Prelude.{◌≡◌, ◌==◌, ◌<◌, ◌≤◌, IfSome, IfNone, length, slice_get};
ghost use Rattle.std.specs.Option.{option_map};
ghost use Rattle.std.specs.List.{position};
ghost use Rattle.line21_codes.specs.BasicCharacters.{basic_of};
ghost use Rattle.line21_codes.specs.SpecialCharacters.{is_entry, special_of};
ghost use Rattle.line21_codes.specs.ExtendedCharacters.{extended_set, extended_of};
ghost use Rattle.line21_codes.specs.Spellings.{spelling_of, Shows, HasNoCode, basic_spelling, special_spelling, extended_spelling};

/// How a character is sent.
#[derive(Clone, Copy, PartialEq, Eq)]
pub enum Spelling {
    /// A basic character, by its byte 0x20 to 0x7F in a text pair.
    Basic(u8),
    /// A special character, by the second byte 0x30 to 0x3F of its control pair.
    Special(u8),
    /// An extended character: the basic character that is sent before it, and which it replaces,
    /// and the two bytes of its control pair.
    Extended { fallback: u8, set: u8, byte: u8 },
}

// The basic characters 0x20 to 0x7F.
const BASIC: [char; 96] = [
    ' ', '!', '"', '#', '$', '%', '&', '\'', '(', ')', 'á', '+', ',', '-', '.', '/', '0', '1', '2',
    '3', '4', '5', '6', '7', '8', '9', ':', ';', '<', '=', '>', '?', '@', 'A', 'B', 'C', 'D', 'E',
    'F', 'G', 'H', 'I', 'J', 'K', 'L', 'M', 'N', 'O', 'P', 'Q', 'R', 'S', 'T', 'U', 'V', 'W', 'X',
    'Y', 'Z', '[', 'é', ']', 'í', 'ó', 'ú', 'a', 'b', 'c', 'd', 'e', 'f', 'g', 'h', 'i', 'j', 'k',
    'l', 'm', 'n', 'o', 'p', 'q', 'r', 's', 't', 'u', 'v', 'w', 'x', 'y', 'z', 'ç', '÷', 'Ñ', 'ñ',
    '█',
];

// The special characters 0x30 to 0x3F; 0x39 is the transparent space.
const SPECIAL: [Option<char>; 16] = [
    Some('®'),
    Some('°'),
    Some('½'),
    Some('¿'),
    Some('™'),
    Some('¢'),
    Some('£'),
    Some('♪'),
    Some('à'),
    None,
    Some('è'),
    Some('â'),
    Some('ê'),
    Some('î'),
    Some('ô'),
    Some('û'),
];

// The extended characters 0x20 to 0x3F of first byte 0x12, each with its fallback.
const EXTENDED_12: [(char, u8); 32] = [
    ('Á', b'A'),
    ('É', b'E'),
    ('Ó', b'O'),
    ('Ú', b'U'),
    ('Ü', b'U'),
    ('ü', b'u'),
    ('‘', b'\''),
    ('¡', b'!'),
    ('*', b' '),
    ('\'', b'\''),
    ('—', b'-'),
    ('©', b'c'),
    ('℠', b's'),
    ('•', b'.'),
    ('“', b'"'),
    ('”', b'"'),
    ('À', b'A'),
    ('Â', b'A'),
    ('Ç', b'C'),
    ('È', b'E'),
    ('Ê', b'E'),
    ('Ë', b'E'),
    ('ë', b'e'),
    ('Î', b'I'),
    ('Ï', b'I'),
    ('ï', b'i'),
    ('Ô', b'O'),
    ('Ù', b'U'),
    ('ù', b'u'),
    ('Û', b'U'),
    ('«', b'"'),
    ('»', b'"'),
];

// The extended characters 0x20 to 0x3F of first byte 0x13, each with its fallback.
const EXTENDED_13: [(char, u8); 32] = [
    ('Ã', b'A'),
    ('ã', b'a'),
    ('Í', b'I'),
    ('Ì', b'I'),
    ('ì', b'i'),
    ('Ò', b'O'),
    ('ò', b'o'),
    ('Õ', b'O'),
    ('õ', b'o'),
    ('{', b'('),
    ('}', b')'),
    ('\\', b'/'),
    ('^', b' '),
    ('_', b'-'),
    ('|', b'/'),
    ('~', b'-'),
    ('Ä', b'A'),
    ('ä', b'a'),
    ('Ö', b'O'),
    ('ö', b'o'),
    ('ß', b's'),
    ('¥', b'Y'),
    ('¤', b'C'),
    ('¦', b'/'),
    ('Å', b'A'),
    ('å', b'a'),
    ('Ø', b'O'),
    ('ø', b'o'),
    ('┌', b'+'),
    ('┐', b'+'),
    ('└', b'+'),
    ('┘', b'+'),
];

/// The spelling of a character: basic where it is a basic character, else special, else extended.
/// `None` exactly where line 21 has no code for it; the transparent space spells nothing
/// (CTA-608-E, 47 CFR 79.101).
pub fn spell(ch: char) -> Option<Spelling>
    ensures spelling { result ≡ spelling_of ch }
    ensures shown { IfSome result (Shows ch) }
    ensures none { IfNone result (HasNoCode ch) }
{
    first_spelling(ch)
}

#[tactic(auto, unfolding(crate::specs::Spellings::spelling_of))]
fn first_spelling(ch: char) -> Option<Spelling>
    ensures { result ≡ spelling_of ch }
{
    match spell_basic(ch) {
        Some(spelling) => Some(spelling),
        None => match spell_special(ch) {
            Some(spelling) => Some(spelling),
            None => match spell_extended(0x12, ch) {
                Some(spelling) => Some(spelling),
                None => spell_extended(0x13, ch),
            },
        },
    }
}

fn spell_basic(ch: char) -> Option<Spelling>
    ensures { result ≡ basic_spelling ch }
{
    match place_of_basic(&BASIC, ch) {
        Some(place) => Some(Spelling::Basic(0x20 + place as u8)),
        None => None,
    }
}

fn place_of_basic(table: &[char], ch: char) -> Option<usize>
    ensures place { result ≡ position (λ c. c == ch) table.now }
    ensures bound { IfSome result (λ place. place < length table.now) }
{
    table.iter().position(|c| *c == ch)
}

fn spell_special(ch: char) -> Option<Spelling>
    ensures { result ≡ special_spelling ch }
{
    match place_of_special(&SPECIAL, ch) {
        Some(place) => Some(Spelling::Special(0x30 + place as u8)),
        None => None,
    }
}

fn place_of_special(table: &[Option<char>], ch: char) -> Option<usize>
    ensures place { result ≡ position (is_entry ch) table.now }
    ensures bound { IfSome result (λ place. place < length table.now) }
{
    table.iter().position(|entry| is_entry(ch, *entry))
}

fn is_entry(ch: char, entry: Option<char>) -> bool
    ensures { result ≡ is_entry ch entry }
{
    match entry {
        Some(c) => c == ch,
        None => false,
    }
}

fn spell_extended(set: u8, ch: char) -> Option<Spelling>
    ensures { result ≡ extended_spelling set ch }
{
    let table = extended(set);
    match place_of_extended(table, ch) {
        Some(place) => {
            let (_, fallback) = table[place];
            Some(Spelling::Extended {
                fallback,
                set,
                byte: 0x20 + place as u8,
            })
        }
        None => None,
    }
}

fn place_of_extended(table: &[(char, u8)], ch: char) -> Option<usize>
    ensures place { result ≡ position (λ entry. entry.0 == ch) table.now }
    ensures bound { IfSome result (λ place. place < length table.now) }
{
    table.iter().position(|entry| entry.0 == ch)
}

// The table of a first byte.
fn extended(set: u8) -> &'static [(char, u8)]
    ensures table { result.now ≡ extended_set set }
    ensures length { length result.now ≤ 32 }
{
    match set {
        0x12 => &EXTENDED_12,
        0x13 => &EXTENDED_13,
        _ => &[],
    }
}

/// The character of a byte of a text pair; a byte that is not 0x20 to 0x7F prints nothing.
#[tactic(auto, unfolding(crate::specs::BasicCharacters::basic_of))]
pub fn basic_char(byte: u8) -> Option<char>
    ensures { result ≡ basic_of byte }
{
    if byte < 0x20 {
        return None;
    }
    char_at(&BASIC, usize::from(byte - 0x20))
}

fn char_at(table: &[char], place: usize) -> Option<char>
    ensures { result ≡ slice_get table.now place }
{
    table.get(place).copied()
}

/// The special character of a second byte 0x30 to 0x3F. The transparent space, 0x39, is none.
#[tactic(auto, unfolding(crate::specs::SpecialCharacters::special_of))]
pub fn special_char(byte: u8) -> Option<char>
    ensures { result ≡ special_of byte }
{
    if byte < 0x30 || byte >= 0x40 {
        return None;
    }
    SPECIAL[usize::from(byte - 0x30)]
}

/// The extended character of a first byte 0x12 or 0x13 and a second byte 0x20 to 0x3F.
#[tactic(auto, unfolding(crate::specs::ExtendedCharacters::extended_of))]
pub fn extended_char(set: u8, byte: u8) -> Option<char>
    ensures { result ≡ extended_of set byte }
{
    if byte < 0x20 {
        return None;
    }
    entry_at(extended(set), usize::from(byte - 0x20))
}

fn entry_at(table: &[(char, u8)], place: usize) -> Option<char>
    ensures { result ≡ option_map (λ entry. entry.0) (slice_get table.now place) }
{
    match table.get(place) {
        Some((ch, _)) => Some(*ch),
        None => None,
    }
}
