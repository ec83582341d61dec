ghost use Rattle.std.specs.Prelude.{◌≡◌};
ghost use Rattle.line21_codes.specs.Writable.{is_doubled};

use crate::styles::{Colour, Style};

/// What a pair of line 21 says. Its bytes are without parity, 0x00 to 0x7F.
#[derive(Clone, Copy, PartialEq, Eq)]
pub enum Code {
    /// No data.
    Null,
    /// Two bytes of which each from 0x20 on is a character; another prints nothing.
    Text(u8, u8),
    /// A pair of extended data services, with a first byte 0x01 to 0x0F.
    Xds(u8, u8),
    /// A control code; `second` says that it is of data channel 2.
    Control { second: bool, control: Control },
}

/// A control code of either data channel.
#[derive(Clone, Copy, PartialEq, Eq)]
pub enum Control {
    /// Resume caption loading, for pop-on captions.
    Rcl,
    /// Backspace.
    Bs,
    /// Delete to end of row.
    Der,
    /// Roll-up captions of 2, 3 or 4 rows.
    Ru(u8),
    /// Flash on.
    Fon,
    /// Resume direct captioning, for paint-on captions.
    Rdc,
    /// Text restart.
    Tr,
    /// Resume text display.
    Rtd,
    /// Erase displayed memory.
    Edm,
    /// Carriage return.
    Cr,
    /// Erase non-displayed memory.
    Enm,
    /// End of caption, which flips the memories.
    Eoc,
    /// A tab offset of 1, 2 or 3 columns.
    Tab(u8),
    /// A mid-row code; the colour of italics is `None`.
    MidRow {
        colour: Option<Colour>,
        underline: bool,
    },
    /// A preamble address code: row 1 to 15, column 0 to 28 in steps of 4.
    Preamble {
        row: u8,
        col: u8,
        style: Style,
    },
    /// A special character, by its second byte 0x30 to 0x3F.
    Special(u8),
    /// An extended character, by its first byte 0x12 or 0x13 and its second byte 0x20 to 0x3F.
    Extended {
        set: u8,
        byte: u8,
    },
    /// A control pair that a receiver of captions passes over: alarm off and on, background
    /// colours, black characters, other character groups, and what is not assigned.
    Skipped,
}

impl Code {
    /// Whether the code is sent twice, in two frames one after the other: control codes are
    /// (CTA-608-E, 47 CFR 79.101).
    pub fn is_doubled(self) -> bool
        ensures { result ≡ is_doubled self }
    {
        matches!(self, Code::Control { .. })
    }
}
