ghost use Rattle.std.specs.Prelude.{◌≡◌};
ghost use Rattle.cue_form.specs.Fields.{frame_field, rate_field, channel_field, plain_pen_field, pen_field, fill_field, is_two_bits, named, plain_words, rgb_field};
ghost use Rattle.cue_form.specs.Form.{version_words};

use crate::{is_word, read_within};
use cc_base::Rate;
use cue_types::{Pen, Version};
use dtvcc_codes::{Fill, Rgb};
use line21_codes::{Chan, Colour, Style};

/// The number of a frame, 0 to 4,294,967,295.
pub fn read_frame(text: &[u8]) -> Option<u32>
    ensures { result ≡ frame_field text.now }
{
    match read_within(0, 4_294_967_295, text) {
        Some(frame) => Some(frame as u32),
        None => None,
    }
}

/// A version of the records: 1 or 2.
pub fn read_version(text: &[u8]) -> Option<Version>
    ensures { result ≡ named version_words text.now }
{
    if is_word(text, "1") {
        Some(Version::One)
    } else if is_word(text, "2") {
        Some(Version::Two)
    } else {
        None
    }
}

/// A rate of lists: 29.97, 30, 59.94 or 60 frames a second.
pub fn read_rate(text: &[u8]) -> Option<Rate>
    ensures { result ≡ rate_field text.now }
{
    if is_word(text, "29.97") {
        Some(Rate::F2997)
    } else if is_word(text, "30") {
        Some(Rate::F30)
    } else if is_word(text, "59.94") {
        Some(Rate::F5994)
    } else if is_word(text, "60") {
        Some(Rate::F60)
    } else {
        None
    }
}

/// A channel that cues are authored on: CC1 or CC3.
pub fn read_channel(text: &[u8]) -> Option<Chan>
    ensures { result ≡ channel_field text.now }
{
    if is_word(text, "CC1") {
        Some(Chan::Cc1)
    } else if is_word(text, "CC3") {
        Some(Chan::Cc3)
    } else {
        None
    }
}

/// The style of a line 21 pen: a colour or white italics, underlined where -u is at its end.
pub fn read_pen(text: &[u8]) -> Option<Style>
    ensures { result ≡ pen_field text.now }
{
    let end = text.len().saturating_sub(2);
    if is_word(&text[end..], "-u") {
        read_plain_pen(true, &text[..end])
    } else {
        read_plain_pen(false, text)
    }
}

fn read_plain_pen(underline: bool, text: &[u8]) -> Option<Style>
    ensures { result ≡ plain_pen_field underline text.now }
{
    let (colour, italic) = if is_word(text, "white") {
        (Colour::White, false)
    } else if is_word(text, "green") {
        (Colour::Green, false)
    } else if is_word(text, "blue") {
        (Colour::Blue, false)
    } else if is_word(text, "cyan") {
        (Colour::Cyan, false)
    } else if is_word(text, "red") {
        (Colour::Red, false)
    } else if is_word(text, "yellow") {
        (Colour::Yellow, false)
    } else if is_word(text, "magenta") {
        (Colour::Magenta, false)
    } else if is_word(text, "white-i") {
        (Colour::White, true)
    } else {
        return None;
    };
    Some(Style {
        colour,
        italic,
        underline,
    })
}

/// The pen of a window's run: plain, in italics, underlined, or both.
pub fn read_window_pen(text: &[u8]) -> Option<Pen>
    ensures { result ≡ named plain_words text.now }
{
    let (italic, underline) = if is_word(text, "plain") {
        (false, false)
    } else if is_word(text, "plain-i") {
        (true, false)
    } else if is_word(text, "plain-u") {
        (false, true)
    } else if is_word(text, "plain-i-u") {
        (true, true)
    } else {
        return None;
    };
    Some(Pen::Dtv { italic, underline })
}

/// A colour: three digits from 0 to 3, for red, green and blue.
pub fn read_rgb(text: &[u8]) -> Option<Rgb>
    ensures { result ≡ rgb_field text.now }
{
    match text {
        [r, g, b] if is_two_bits(*r) && is_two_bits(*g) && is_two_bits(*b) => Some(Rgb {
            r: *r - b'0',
            g: *g - b'0',
            b: *b - b'0',
        }),
        _ => None,
    }
}

/// A colour with its opacity: four digits from 0 to 3, for opacity, red, green and blue.
pub fn read_fill(text: &[u8]) -> Option<Fill>
    ensures { result ≡ fill_field text.now }
{
    match text {
        [o, r, g, b] if is_two_bits(*o) && is_two_bits(*r) && is_two_bits(*g) && is_two_bits(*b) =>
            {
                Some(Fill {
                    opacity: *o - b'0',
                    r: *r - b'0',
                    g: *g - b'0',
                    b: *b - b'0',
                })
            }
        _ => None,
    }
}

/// A digit from 0 to 3.
fn is_two_bits(digit: u8) -> bool
    ensures { result ≡ is_two_bits digit }
{
    matches!(digit, b'0'..=b'3')
}
