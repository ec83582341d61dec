ghost use Rattle.std.specs.Prelude.{◌≡◌};
ghost use Rattle.grid_print.specs.Writing.{Writing, in_pens, in_styles};

use dtvcc_windows::DCell;
use line21_codes::Cell;

/// A cell of a screen: a character, and how it is written.
pub trait WrittenCell: Copy {
    ghost writing: { Writing Self };

    /// Whether another cell is written alike.
    fn is_alike(self, other: Self) -> bool
        ensures { result ≡ writing.alike self other };

    /// The character.
    fn character(self) -> char
        ensures { result ≡ writing.ch self };
}

impl WrittenCell for Cell {
    ghost writing = { in_styles };

    fn is_alike(self, other: Cell) -> bool {
        self.style == other.style
    }

    fn character(self) -> char {
        self.ch
    }
}

impl WrittenCell for DCell {
    ghost writing = { in_pens };

    fn is_alike(self, other: DCell) -> bool {
        self.pen == other.pen && self.colors == other.colors
    }

    fn character(self) -> char {
        self.ch
    }
}
