use crate::pens::{Fill, Rgb};

/// What SetWindowAttributes says of the current window (CTA-708-E, SWA). Fields are kept as the bits came, also where the
/// standard gives them no meaning.
#[derive(Clone, Copy, Default, PartialEq, Eq)]
pub struct WinAttr {
    /// 0 left, 1 right, 2 centre, 3 full.
    pub justify: u8,
    /// The direction in which characters are printed: 0 left to right, 1 right to left, 2 top to bottom, 3 bottom to top.
    pub print: u8,
    /// The direction in which text scrolls, numbered as `print` is.
    pub scroll: u8,
    /// Words are wrapped.
    pub wrap: bool,
    /// The display effect: 0 snap, 1 fade, 2 wipe; at most 3.
    pub effect: u8,
    /// The direction of a wipe, numbered as `print` is.
    pub effect_dir: u8,
    /// The speed of a fade or a wipe, in half seconds: 0 to 15.
    pub effect_speed: u8,
    /// The window's fill.
    pub fill: Fill,
    /// The border: 0 none, 1 raised, 2 depressed, 3 uniform, 4 left shadow, 5 right shadow; at most 7.
    pub border_kind: u8,
    /// The border's colour.
    pub border: Rgb,
}

/// What DefineWindow says (CTA-708-E, DF0 to DF7). Fields are kept as the bits came, also where the standard gives them no
/// meaning.
#[derive(Clone, Copy, Default, PartialEq, Eq)]
pub struct Definition {
    /// The window, 0 to 7.
    pub id: u8,
    /// The window is shown at once.
    pub visible: bool,
    /// The number of rows stays as it is.
    pub row_lock: bool,
    /// The number of columns stays as it is.
    pub col_lock: bool,
    /// 0, the highest, to 7.
    pub priority: u8,
    /// The anchor's position is given in hundredths of the picture, and not in cells.
    pub relative: bool,
    /// The anchor's vertical position, 0 to 127.
    pub av: u8,
    /// The anchor's horizontal position, 0 to 255.
    pub ah: u8,
    /// Which point of the window is its anchor: 0 to 8, from the upper left to the lower right; at most 15.
    pub anchor: u8,
    /// The number of rows, 1 to 16.
    pub rows: u8,
    /// The number of columns, 1 to 64.
    pub cols: u8,
    /// The predefined window style 1 to 7; 0 is none.
    pub ws: u8,
    /// The predefined pen style 1 to 7; 0 is none.
    pub ps: u8,
}
