ghost use Rattle.std.specs.Prelude.{◌≡◌, ◌<◌, ◌==◌, if◌then◌else◌, IfSome, Some, None};
ghost use Rattle.hex_digits.specs.HexDigits.{hex_value};
ghost use Rattle.scc_files.specs.Phases.{HasNumbersInRange, ended, first_text_ended, first_text_moved, fits, may_end, phase_after, started, text_moved, why_in, word_or_end};

use cc_base::Why;
use hex_digits::hex_value;
use line21_codes::Pair;

/// The text of an SCC file's first line.
pub const FIRST_TEXT: [u8; 18] = *b"Scenarist_SCC V1.0";

const LF: u8 = 0x0A;

const CR: u8 = 0x0D;

const TAB: u8 = 0x09;

const SPACE: u8 = 0x20;

/// Where the bytes read so far have ended within the form of an SCC file.
#[derive(Clone, Copy)]
pub enum Phase {
    /// After this many bytes of the first line's text.
    First(u8),
    /// After the first line's text, and perhaps spaces.
    FirstSpaces,
    /// After the CR of the first line's end.
    FirstEnd,
    /// At the start of a line.
    Start,
    /// After spaces at the start of a line.
    Blank,
    /// After the CR of a line's end.
    End,
    /// After this many bytes of a time code's text.
    Text {
        /// How many, from 1 to 10.
        at: u8,
        /// The text, whose first bytes these are.
        text: [u8; 11],
    },
    /// Right after a time code's text.
    Timed([u8; 11]),
    /// After TABs and spaces that follow a time code.
    Gap,
    /// After one hex digit of a word, of this value.
    One(u8),
    /// After two, which are this byte.
    Two(u8),
    /// After three: a byte, and the value of a digit.
    Three(u8, u8),
    /// Right after a word, which is this pair.
    Whole(Pair),
    /// After spaces that follow a word.
    Between,
}

/// Whether a byte may stand at a place, below 11, of a time code's text.
fn fits(at: u8, byte: u8) -> bool
    ensures { result ≡ fits at byte }
{
    match at {
        2 | 5 => byte == b':',
        8 => byte == b':' || byte == b';',
        _ => byte.is_ascii_digit(),
    }
}

/// A line's end, or its CR.
fn ended(byte: u8) -> Option<Phase>
    ensures { result ≡ ended byte }
{
    match byte {
        LF => Some(Phase::Start),
        CR => Some(Phase::End),
        _ => None,
    }
}

/// A phase to which one byte alone leads.
fn only(wanted: u8, phase: Phase, byte: u8) -> Option<Phase>
    ensures { result ≡ (if byte == wanted then Some phase else None) }
{
    if byte == wanted { Some(phase) } else { None }
}

/// What a byte leads to after the first line's text.
fn first_line_end(byte: u8) -> Option<Phase>
    ensures moved { result ≡ first_text_ended byte }
    ensures within { IfSome result HasNumbersInRange }
{
    match byte {
        SPACE => Some(Phase::FirstSpaces),
        LF => Some(Phase::Start),
        CR => Some(Phase::FirstEnd),
        _ => None,
    }
}

/// What a byte that is no space leads to after spaces that follow a word: a further word, or the line's end.
fn word_or_end(byte: u8) -> Option<Phase>
    ensures moved { result ≡ word_or_end byte (hex_value byte) }
    ensures within { IfSome result HasNumbersInRange }
{
    match hex_value(byte) {
        Some(value) => Some(Phase::One(value)),
        None => ended(byte),
    }
}

/// What a byte leads to within the first line's text.
fn first_text(at: u8, byte: u8) -> Option<Phase>
    requires { at < 18 }
    ensures moved { result ≡ first_text_moved at byte }
    ensures within { IfSome result HasNumbersInRange }
{
    if byte != FIRST_TEXT[at as usize] {
        None
    } else if at == 17 {
        Some(Phase::FirstSpaces)
    } else {
        Some(Phase::First(at + 1))
    }
}

/// What a byte leads to at the start of a line.
fn line_start(byte: u8) -> Option<Phase>
    ensures moved { result ≡ started byte }
    ensures within { IfSome result HasNumbersInRange }
{
    if byte.is_ascii_digit() {
        let text = [byte, 0, 0, 0, 0, 0, 0, 0, 0, 0, 0];
        Some(Phase::Text { at: 1, text })
    } else if byte == SPACE {
        Some(Phase::Blank)
    } else {
        ended(byte)
    }
}

/// What a byte leads to within a time code's text.
fn time_text(at: u8, text: [u8; 11], byte: u8) -> Option<Phase>
    requires { at < 11 }
    ensures moved { result ≡ text_moved at text byte }
    ensures within { IfSome result HasNumbersInRange }
{
    if !fits(at, byte) {
        return None;
    }
    let mut text = text;
    text[at as usize] = byte;
    if at == 10 {
        Some(Phase::Timed(text))
    } else {
        Some(Phase::Text { at: at + 1, text })
    }
}

impl Phase {
    /// What a byte leads to; None exactly where no line can continue with it.
    pub fn moved(self, byte: u8) -> Option<Phase>
        requires { HasNumbersInRange self }
        ensures moved { result ≡ phase_after self byte }
        ensures within { IfSome result HasNumbersInRange }
    {
        match self {
            Phase::First(at) => first_text(at, byte),
            Phase::FirstSpaces => first_line_end(byte),
            Phase::FirstEnd | Phase::End => only(LF, Phase::Start, byte),
            Phase::Start => line_start(byte),
            Phase::Blank if byte == SPACE => Some(Phase::Blank),
            Phase::Blank => ended(byte),
            Phase::Text { at, text } => time_text(at, text, byte),
            Phase::Timed(_) if byte == TAB || byte == SPACE => Some(Phase::Gap),
            Phase::Timed(_) => None,
            Phase::Gap if byte == TAB || byte == SPACE => Some(Phase::Gap),
            Phase::Gap => Some(Phase::One(hex_value(byte)?)),
            Phase::One(value) => Some(Phase::Two(16 * value + hex_value(byte)?)),
            Phase::Two(first) => Some(Phase::Three(first, hex_value(byte)?)),
            Phase::Three(a, value) => {
                let b = 16 * value + hex_value(byte)?;
                Some(Phase::Whole(Pair { a, b }))
            }
            Phase::Whole(_) | Phase::Between if byte == SPACE => Some(Phase::Between),
            Phase::Whole(_) => ended(byte),
            Phase::Between => word_or_end(byte),
        }
    }

    /// Whether a file may end here.
    pub fn may_end(self) -> bool
        ensures { result ≡ may_end self }
    {
        matches!(
            self,
            Phase::FirstSpaces | Phase::Start | Phase::Blank | Phase::Whole(_) | Phase::Between
        )
    }

    /// The reason where no line goes on.
    pub fn why(self) -> Why
        ensures { result ≡ why_in self }
    {
        match self {
            Phase::First(_) | Phase::FirstSpaces | Phase::FirstEnd => Why::Header,
            _ => Why::SccSyntax,
        }
    }
}
