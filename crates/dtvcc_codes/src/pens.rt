/// A colour of 2 bits for each part, from 0 to 3 (CTA-708-E, SetPenColor and SetWindowAttributes).
#[derive(Clone, Copy, Default, PartialEq, Eq)]
pub struct Rgb {
    /// Red, 0 to 3.
    pub r: u8,
    /// Green, 0 to 3.
    pub g: u8,
    /// Blue, 0 to 3.
    pub b: u8,
}

/// A colour with its opacity (CTA-708-E, SetPenColor and SetWindowAttributes).
#[derive(Clone, Copy, Default, PartialEq, Eq)]
pub struct Fill {
    /// 0 solid, 1 flash, 2 translucent, 3 transparent.
    pub opacity: u8,
    /// Red, 0 to 3.
    pub r: u8,
    /// Green, 0 to 3.
    pub g: u8,
    /// Blue, 0 to 3.
    pub b: u8,
}

/// What SetPenAttributes says of the characters that follow (CTA-708-E, SPA). Fields are kept as the bits came, also where
/// the standard gives them no meaning.
#[derive(Clone, Copy, Default, PartialEq, Eq)]
pub struct PenAttr {
    /// 0 small, 1 standard, 2 large; at most 3.
    pub size: u8,
    /// 0 default, 1 monospaced serif, 2 proportional serif, 3 monospaced sans, 4 proportional sans, 5 casual, 6 cursive,
    /// 7 small capitals.
    pub font: u8,
    /// The text tag, which says what kind of text it is: 0 dialogue, to 15.
    pub tag: u8,
    /// 0 subscript, 1 normal, 2 superscript; at most 3.
    pub offset: u8,
    /// Italics.
    pub italic: bool,
    /// Underlined.
    pub underline: bool,
    /// 0 none, 1 raised, 2 depressed, 3 uniform, 4 left shadow, 5 right shadow; at most 7.
    pub edge: u8,
}

/// What SetPenColor says of the characters that follow (CTA-708-E, SPC).
#[derive(Clone, Copy, Default, PartialEq, Eq)]
pub struct PenColors {
    /// The characters.
    pub fg: Fill,
    /// After the characters.
    pub bg: Fill,
    /// The characters' edges.
    pub edge: Rgb,
}
