ghost use Rattle.std.specs.Prelude.{◌≤◌};

use line21_codes::{Colour, Style};

// White without italics and underline.
const PLAIN: Style = Style {
    colour: Colour::White,
    italic: false,
    underline: false,
};

// The column after the last one.
const BEHIND: u8 = 32;

/// Where the next character goes: row 1 to 15, column 0 to 32, and how it is shown.
#[derive(Clone, Copy)]
pub(crate) struct Pen {
    pub(crate) row: u8,
    pub(crate) col: u8,
    pub(crate) style: Style,
    pub ghost row_from: { 1 ≤ row },
    pub ghost row_to: { row ≤ 15 },
    pub ghost col_to: { col ≤ 32 },
}

impl Pen {
    ghost use Rattle.std.specs.Prelude.{◌≡◌};
    ghost use Rattle.line21_screen.specs.Pens.{pen_at_row, in_row, at_column, with_style, advanced, tabbed, print_column};
    ghost use Rattle.line21_screen.specs.Objects.{pen_of};

    // At the first column of a row, plain white.
    pub(crate) fn at_row(row: u8) -> Pen
        requires from { 1 ≤ row }
        requires to { row ≤ 15 }
        ensures { pen_of result ≡ pen_at_row row }
    {
        Pen {
            row,
            col: 0,
            style: PLAIN,
        }
    }

    // In another row.
    pub(crate) fn in_row(self, row: u8) -> Pen
        requires from { 1 ≤ row }
        requires to { row ≤ 15 }
        ensures { pen_of result ≡ in_row row (pen_of self) }
    {
        Pen {
            row,
            col: self.col,
            style: self.style,
        }
    }

    // At another column.
    pub(crate) fn at_column(self, col: u8) -> Pen
        requires { col ≤ 32 }
        ensures { pen_of result ≡ at_column col (pen_of self) }
    {
        Pen {
            row: self.row,
            col,
            style: self.style,
        }
    }

    // With another style.
    pub(crate) fn with_style(self, style: Style) -> Pen
        ensures { pen_of result ≡ with_style style (pen_of self) }
    {
        Pen {
            row: self.row,
            col: self.col,
            style,
        }
    }

    // The column that a character goes to.
    pub(crate) fn print_column(self) -> u8
        ensures column { result ≡ print_column (pen_of self) }
        ensures within { result ≤ 31 }
    {
        self.col.min(BEHIND - 1)
    }

    // After a character.
    pub(crate) fn advanced(self) -> Pen
        ensures { pen_of result ≡ advanced (pen_of self) }
    {
        self.at_column((self.col + 1).min(BEHIND))
    }

    // After a tab offset.
    pub(crate) fn tabbed(self, columns: u8) -> Pen
        requires { columns ≤ 3 }
        ensures { pen_of result ≡ tabbed columns (pen_of self) }
    {
        if self.col == BEHIND {
            self
        } else {
            self.at_column((self.col + columns).min(BEHIND - 1))
        }
    }
}
