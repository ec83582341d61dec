ghost use Rattle.std.specs.Prelude.{◌≡◌, ◌≤◌};
ghost use Rattle.scc_files.specs.Phases.{is_blank};
ghost use Rattle.mcc_files.specs.Lines.{is_letter, is_name_byte, rate_name};
ghost use Rattle.mcc_files.specs.Phases.{matched, rate_count, rate_moved, why_in};

use cc_base::Why;
use time_codes::Counting;

/// The name of the time code rate.
const RATE_NAME: [u8; 14] = *b"Time Code Rate";

/// What of the text of a count has been read.
#[derive(Clone, Copy)]
pub enum RateText {
    /// Nothing.
    Empty,
    /// `2`.
    Two,
    /// `3`.
    Three,
    /// `5`.
    Five,
    /// `6`.
    Six,
    /// `30D`.
    ThirtyD,
    /// `60D`.
    SixtyD,
    /// The whole text of this count; `30` and `60` may continue with `DF`.
    Whole(Counting),
}

impl RateText {
    /// What a byte leads to; None exactly where the text of no count can continue with it.
    pub fn moved(self, byte: u8) -> Option<RateText>
        ensures { result ≡ rate_moved self byte }
    {
        match (self, byte) {
            (RateText::Empty, b'2') => Some(RateText::Two),
            (RateText::Empty, b'3') => Some(RateText::Three),
            (RateText::Empty, b'5') => Some(RateText::Five),
            (RateText::Empty, b'6') => Some(RateText::Six),
            (RateText::Two, b'4') => Some(RateText::Whole(Counting::F24)),
            (RateText::Two, b'5') => Some(RateText::Whole(Counting::F25)),
            (RateText::Three, b'0') => Some(RateText::Whole(Counting::F30)),
            (RateText::Five, b'0') => Some(RateText::Whole(Counting::F50)),
            (RateText::Six, b'0') => Some(RateText::Whole(Counting::F60)),
            (RateText::Whole(Counting::F30), b'D') => Some(RateText::ThirtyD),
            (RateText::ThirtyD, b'F') => Some(RateText::Whole(Counting::F30Drop)),
            (RateText::Whole(Counting::F60), b'D') => Some(RateText::SixtyD),
            (RateText::SixtyD, b'F') => Some(RateText::Whole(Counting::F60Drop)),
            _ => None,
        }
    }

    /// The count whose text it is.
    pub fn count(self) -> Option<Counting>
        ensures { result ≡ rate_count self }
    {
        match self {
            RateText::Whole(count) => Some(count),
            _ => None,
        }
    }
}

/// Where the bytes read so far have ended within the form of an MCC file.
#[derive(Clone, Copy)]
pub enum Phase {
    /// After this many bytes of the first line's text, below 31.
    First(u8),
    /// After the first line's text, and perhaps spaces.
    FirstSpaces,
    /// After the CR of the first line's end.
    FirstEnd,
    /// At the start of a line.
    Start,
    /// After spaces and TABs at the start of a line.
    Blank,
    /// After one slash.
    Slash,
    /// In a comment.
    Comment,
    /// In the name of an attribute: of the rate's name this many bytes, from 1 to 14; or 0, another name.
    Name(u8),
    /// In the value of an attribute that isn't the rate.
    Value,
    /// In the text of a count.
    Rate(RateText),
    /// After spaces that follow the text of a count.
    RateSpaces,
    /// In a time code's text.
    Time,
    /// Right after a time code's text.
    Timed,
    /// After the point that follows it.
    Dot,
    /// After the digit that follows the point.
    Field,
    /// After a comma and this many digits, at most 5.
    Digits(u8),
    /// In a payload.
    Payload,
    /// After spaces and TABs that follow a payload.
    Behind,
    /// After the CR of a line's end; whether the line is a packet's.
    End(bool),
}

/// Whether the byte is a TAB or a space.
pub fn is_blank(byte: u8) -> bool
    ensures { result ≡ is_blank byte }
{
    byte == b'\t' || byte == b' '
}

/// Whether the byte is a letter.
pub fn is_letter(byte: u8) -> bool
    ensures { result ≡ is_letter byte }
{
    byte.is_ascii_alphabetic()
}

/// Whether the byte may stand in an attribute's name after its first letter: a letter, a digit or a space.
pub fn is_name_byte(byte: u8) -> bool
    ensures { result ≡ is_name_byte byte }
{
    byte.is_ascii_alphanumeric() || byte == b' '
}

/// How many bytes of the rate's name stand in a name with one byte more, where this many stood before; 0 in another name.
pub fn matched(before: u8, byte: u8) -> u8
    ensures matched { result ≡ matched before byte }
    ensures within { result ≤ 14 }
{
    if 0 < before && before < 14 && byte == RATE_NAME[before as usize] {
        before + 1
    } else {
        0
    }
}

impl Phase {
    /// The reason where no line goes on.
    pub fn why(self) -> Why
        ensures { result ≡ why_in self }
    {
        match self {
            Phase::First(_) | Phase::FirstSpaces | Phase::FirstEnd => Why::Header,
            _ => Why::MccSyntax,
        }
    }
}
