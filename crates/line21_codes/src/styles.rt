ghost use Rattle.std.specs.Prelude.{◌≡◌};
ghost use Rattle.line21_codes.specs.PenWords.{colour_word, italic_mark, underline_mark};

/// A foreground colour of line 21, in the order of the mid-row and preamble codes.
#[derive(Clone, Copy, PartialEq, Eq)]
pub enum Colour {
    White,
    Green,
    Blue,
    Cyan,
    Red,
    Yellow,
    Magenta,
}

impl Colour {
    /// The colour's word, in cue lists and in the texts of screens.
    pub fn word(self) -> &'static str
        ensures { result.now ≡ colour_word self }
    {
        match self {
            Colour::White => "white",
            Colour::Green => "green",
            Colour::Blue => "blue",
            Colour::Cyan => "cyan",
            Colour::Red => "red",
            Colour::Yellow => "yellow",
            Colour::Magenta => "magenta",
        }
    }
}

/// What an italic pen has after its colour, in cue lists and in the texts of screens.
pub fn italic_mark(italic: bool) -> &'static str
    ensures { result.now ≡ italic_mark italic }
{
    if italic { "-i" } else { "" }
}

/// What an underlined pen has after that.
pub fn underline_mark(underline: bool) -> &'static str
    ensures { result.now ≡ underline_mark underline }
{
    if underline { "-u" } else { "" }
}

/// How a character is shown.
#[derive(Clone, Copy, PartialEq, Eq)]
pub struct Style {
    pub colour: Colour,
    pub italic: bool,
    pub underline: bool,
}

/// A character of the caption grid, with its style.
#[derive(Clone, Copy, PartialEq, Eq)]
pub struct Cell {
    pub ch: char,
    pub style: Style,
}
