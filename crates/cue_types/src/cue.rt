use crate::runs::Runs;
use crate::text::Text;
use dtvcc_codes::{PenColors, WinAttr};
use line21_codes::{Chan, Style};

/// How a cue is shown, and where.
#[derive(Clone, Copy, PartialEq, Eq)]
pub enum Kind {
    /// A pop-on caption of line 21, on CC1 or CC3 (CTA-608-E; 47 CFR 79.101).
    Pop(Chan),
    /// A paint-on caption of line 21, on CC1 or CC3.
    Paint(Chan),
    /// A roll-up caption of line 21, on CC1 or CC3, of 2, 3 or 4 rows.
    Roll(Chan, u8),
    /// A caption in a window of DTVCC (CTA-708-E).
    Win(WinCue),
}

/// A window of a DTVCC service (CTA-708-E, 8.4), and when it is shown.
#[derive(Clone, Copy, PartialEq, Eq)]
pub struct WinCue {
    /// The service, 1 to 6.
    pub service: u8,
    /// The window's id, 0 to 7.
    pub id: u8,
    /// The delay before the window is shown, 0 to 255 tenths of a second.
    pub delay: u8,
    /// The anchor point of the window, 0 to 8.
    pub anchor: u8,
    /// The anchor's row on the screen, 0 to 74.
    pub av: u8,
    /// The anchor's column on the screen, 0 to 209.
    pub ah: u8,
    /// Rows of the window, 1 to 12.
    pub rows: u8,
    /// Columns of the window, 1 to 42.
    pub cols: u8,
    /// The window's priority, 0 (the highest) to 7.
    pub priority: u8,
    /// The predefined window style, 1 to 7.
    pub ws: u8,
    /// The predefined pen style, 1 to 7.
    pub ps: u8,
    /// The window's attributes (CTA-708-E, SWA); without them, the window style's.
    pub attr: Option<WinAttr>,
}

/// What a run is written with.
#[derive(Clone, Copy, PartialEq, Eq)]
pub enum Pen {
    /// The style of a line 21 run; italics are white.
    Line21(Style),
    /// What a run of a window adds to its predefined pen style.
    Dtv { italic: bool, underline: bool },
}

/// A text in one row of a cue.
#[derive(Drop)]
pub struct Run {
    /// The row: 1 to 15 on line 21; in a window from 0, below its rows.
    pub row: u8,
    /// The column of the first character: 0 to 31 on line 21; in a window below its columns.
    pub col: u8,
    /// What the text is written with.
    pub pen: Pen,
    /// The characters, one a column.
    pub text: Text,
    /// The colours of a window's run (CTA-708-E, SPC); without them, the window's pen style's. A line 21 run has none.
    pub colors: Option<PenColors>,
}

/// A caption.
#[derive(Drop)]
pub struct Cue {
    /// The first frame in which the cue may be sent.
    pub load: u32,
    /// The frame in which it is shown.
    pub show: u32,
    /// The frame in which it is hidden; a roll-up cue may have none.
    pub hide: Option<u32>,
    /// How it is shown.
    pub kind: Kind,
    /// Its runs, of which there is one at least.
    pub runs: Runs,
}
