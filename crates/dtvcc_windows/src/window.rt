ghost use Rattle.std.specs.Prelude.{◌≡◌, ◌==◌, ◌≤◌, ◌<◌, if◌then◌else◌, vec_len, true};
ghost use Rattle.dtvcc_windows.specs.Defining.{style_or_first};
ghost use Rattle.dtvcc_windows.specs.Lists.{listed_cells};
ghost use Rattle.dtvcc_windows.specs.Sizes.{IsWithin};
ghost use Rattle.dtvcc_windows.specs.Styles.{pen_style, window_style};

use crate::cells::{Cells, DCell};
use crate::styles::{pen_style, window_style};
use dtvcc_codes::{Definition, PenAttr, PenColors, WinAttr};
use std::alloc::{AllocError, Global};
use std::ops::Range;

/// A caption window (CTA-708-E, caption windows): its definition, attributes and cells, and its pen. It may not be there
/// yet, or not any more: it is live from a [`define`](Window::define) to a [`delete`](Window::delete).
///
/// All memory that it ever takes is taken by [`new`](Window::new), and filled when it is first defined.
#[derive(Drop)]
pub struct Window {
    cells: Cells,
    live: bool,
    visible: bool,
    definition: Definition,
    attributes: WinAttr,
    // Where the pen stands: at the column after the last one too.
    row: u8,
    col: u8,
    pen: PenAttr,
    colors: PenColors,
    pub ghost filled: { live ≡ true → vec_len cells.places ≡ 1024 },
    pub ghost rows_to: { definition.rows ≤ 16 },
    pub ghost cols_from: { 1 ≤ definition.cols },
    pub ghost cols_to: { definition.cols ≤ 64 },
    pub ghost row_in: { row < definition.rows },
    pub ghost col_in: { col ≤ definition.cols },
    pub ghost within: { IsWithin definition.rows definition.cols (listed_cells cells.places.items) },
}

impl Window {
    ghost use Rattle.std.specs.Prelude.{◌≢◌, false, IfOk, IfSome, IsTrue, Some, None, is_some, option_map};
    ghost use Rattle.dtvcc_codes.specs.Spellable.{IsDefinition};
    ghost use Rattle.dtvcc_windows.specs.Defining.{defined, made, redefined};
    ghost use Rattle.dtvcc_windows.specs.Places.{window_row};
    ghost use Rattle.dtvcc_windows.specs.Showing.{StandsIn, as_shown, shown};
    ghost use Rattle.dtvcc_windows.specs.Text.{carriage_returned, cleared, form_fed, located, row_returned, window_backspaced, with_character};
    ghost use Rattle.dtvcc_windows.specs.Windows.{with_attributes, with_colors, with_visibility, with_window_pen};
    ghost use Rattle.dtvcc_windows.specs.Objects.{is_live, state_of, window_of};

    /// A window that isn't there yet.
    pub fn new(alloc: Global) -> Result<Window, AllocError>
        ensures none { IfOk result (λ window. window_of window ≡ None) }
    {
        Ok(Window {
            cells: Cells::new(alloc)?,
            live: false,
            visible: false,
            definition: Definition {
                rows: 1,
                cols: 1,
                ..Definition::default()
            },
            attributes: WinAttr::default(),
            row: 0,
            col: 0,
            pen: PenAttr::default(),
            colors: PenColors::default(),
        })
    }

    /// DefineWindow (CTA-708-E, DF0 to DF7): makes the window, or changes the one that is there.
    pub fn define(&mut self, d: &Definition)
        requires { IsDefinition d.now }
        ensures window { window_of self.new ≡ Some (defined d.now (window_of self.old)) }
    {
        if self.live {
            self.redefine(*d);
        } else {
            self.make(*d);
        }
    }

    // A window that wasn't there is made.
    fn make(&mut self, d: Definition)
        requires { IsDefinition d }
        ensures window { window_of self.new ≡ Some (made d) }
    {
        self.cells.clear();
        self.live = true;
        self.visible = d.visible;
        self.attributes = window_style(style_or_first(d.ws));
        self.row = 0;
        self.col = 0;
        (self.pen, self.colors) = pen_style(style_or_first(d.ps));
        self.definition = d;
    }

    // One that was there changes.
    fn redefine(&mut self, d: Definition)
        requires spelled { IsDefinition d }
        requires live { IsTrue (is_live self.old) }
        ensures window { window_of self.new ≡ Some (redefined d (state_of self.old)) }
    {
        self.cells.refit(&self.definition, &d);
        self.visible = d.visible;
        self.attributes = window_style_or(d.ws, self.attributes);
        self.row = self.row.min(d.rows - 1);
        self.col = self.col.min(d.cols - 1);
        (self.pen, self.colors) = pen_style_or(d.ps, self.pen, self.colors);
        self.definition = d;
    }

    /// Writes a character at the pen, or removes the cell there (`None`, the transparent space), and moves the pen one column
    /// right (CTA-708-E, G0 to G3). Past the last column it is dropped.
    pub fn put(&mut self, ch: Option<char>)
        requires { IsTrue (is_live self.old) }
        ensures window { window_of self.new ≡ option_map (with_character ch) (window_of self.old) }
    {
        if self.col < self.definition.cols {
            match ch {
                Some(ch) => {
                    let cell = DCell {
                        ch,
                        pen: self.pen,
                        colors: self.colors,
                    };
                    self.cells.put(self.row, self.col, Some(cell));
                }
                None => self.cells.put(self.row, self.col, None),
            }
            self.col += 1;
        }
    }

    /// Moves the pen left by one column and removes the cell there; at column 0 nothing happens (CTA-708-E, BS).
    pub fn back(&mut self)
        requires { IsTrue (is_live self.old) }
        ensures window { window_of self.new ≡ option_map window_backspaced (window_of self.old) }
    {
        if self.col != 0 {
            self.cells.put(self.row, self.col - 1, None);
            self.col -= 1;
        }
    }

    /// Removes all cells and puts the pen at row 0, column 0 (CTA-708-E, FF).
    pub fn form_feed(&mut self)
        requires { IsTrue (is_live self.old) }
        ensures window { window_of self.new ≡ option_map form_fed (window_of self.old) }
    {
        self.cells.clear();
        self.row = 0;
        self.col = 0;
    }

    /// Puts the pen at the beginning of the next row; on the last row all rows move up by one, and the last is empty
    /// (CTA-708-E, CR).
    pub fn carriage_return(&mut self)
        requires { IsTrue (is_live self.old) }
        ensures window { window_of self.new ≡ option_map carriage_returned (window_of self.old) }
    {
        if self.row + 1 == self.definition.rows {
            self.cells.raise();
        } else {
            self.row += 1;
        }
        self.col = 0;
    }

    /// Removes the cells of the pen's row and puts the pen at its beginning (CTA-708-E, HCR).
    pub fn row_return(&mut self)
        requires { IsTrue (is_live self.old) }
        ensures window { window_of self.new ≡ option_map row_returned (window_of self.old) }
    {
        self.cells.clear_from(self.row, 0);
        self.col = 0;
    }

    /// Puts the pen at a row and a column, counted from 0, each the last one at most (CTA-708-E, SetPenLocation).
    pub fn locate(&mut self, row: u8, col: u8)
        requires { IsTrue (is_live self.old) }
        ensures window { window_of self.new ≡ option_map (located row col) (window_of self.old) }
    {
        self.row = row.min(self.definition.rows - 1);
        self.col = col.min(self.definition.cols - 1);
    }

    /// Removes all cells; the pen stays (CTA-708-E, ClearWindows).
    pub fn clear(&mut self)
        requires { IsTrue (is_live self.old) }
        ensures window { window_of self.new ≡ option_map cleared (window_of self.old) }
    {
        // The pen stays where it is.
        self.cells.clear();
    }

    /// Shows the window or hides it (CTA-708-E, DisplayWindows, HideWindows, ToggleWindows).
    pub fn set_visible(&mut self, on: bool)
        requires { IsTrue (is_live self.old) }
        ensures window { window_of self.new ≡ option_map (with_visibility on) (window_of self.old) }
    {
        self.visible = on;
    }

    /// Gives the window other attributes (CTA-708-E, SetWindowAttributes).
    pub fn set_attributes(&mut self, attributes: WinAttr)
        requires { IsTrue (is_live self.old) }
        ensures window { window_of self.new
            ≡ option_map (with_attributes attributes) (window_of self.old) }
    {
        self.attributes = attributes;
    }

    /// Gives the pen other attributes, for the characters that follow (CTA-708-E, SetPenAttributes).
    pub fn set_pen(&mut self, pen: PenAttr)
        requires { IsTrue (is_live self.old) }
        ensures window { window_of self.new
            ≡ option_map (with_window_pen pen) (window_of self.old) }
    {
        self.pen = pen;
    }

    /// Gives the pen other colours, for the characters that follow (CTA-708-E, SetPenColor).
    pub fn set_colors(&mut self, colors: PenColors)
        requires { IsTrue (is_live self.old) }
        ensures window { window_of self.new ≡ option_map (with_colors colors) (window_of self.old) }
    {
        self.colors = colors;
    }

    /// Deletes the window (CTA-708-E, DeleteWindows): it is no longer live.
    pub fn delete(&mut self)
        requires { IsTrue (is_live self.old) }
        ensures window { window_of self.new ≡ None }
    {
        self.live = false;
    }

    /// The cell at a row and a column, counted from 0; there is none outside of the window's size.
    pub fn cell(&self, row: u8, col: u8) -> Option<DCell>
        requires { IsTrue (is_live self.now) }
        ensures { IfSome (window_of self.now) (λ window. result ≡ window.cells row col) }
    {
        if row < self.definition.rows && col < self.definition.cols {
            self.cells.cell(row, col)
        } else {
            None
        }
    }

    /// The rows that can have a cell, of those that the window has: all others have none.
    pub fn rows(&self) -> Range<u8>
        requires { IsTrue (is_live self.now) }
        ensures { IfSome (window_of self.now) (StandsIn result.start result.end) }
    {
        let rows = self.cells.rows();
        let count = self.definition.rows;
        rows.start.min(count)..rows.end.min(count)
    }

    /// What stands in a row, counted from 0, column by column.
    pub fn row(&self, row: u8) -> &[Option<DCell>]
        requires live { IsTrue (is_live self.now) }
        requires row { IfSome (window_of self.now) (λ window. row < window.definition.rows) }
        ensures { IfSome (window_of self.now)
            (λ window. result.now ≡ window_row window.cells window.definition.cols row) }
    {
        self.cells.row(row, self.definition.cols)
    }

    /// What the last [`define`](Window::define) said, as it came.
    pub fn definition(&self) -> Definition
        requires { IsTrue (is_live self.now) }
        ensures { IfSome (window_of self.now) (λ window. result ≡ window.definition) }
    {
        self.definition
    }

    /// The window's attributes.
    pub fn attributes(&self) -> WinAttr
        requires { IsTrue (is_live self.now) }
        ensures { IfSome (window_of self.now) (λ window. result ≡ window.attributes) }
    {
        self.attributes
    }

    /// Whether there is a window.
    pub fn live(&self) -> bool
        ensures { result ≡ is_live self.now }
    {
        self.live
    }

    /// Whether the window is shown.
    pub fn visible(&self) -> bool
        requires { IsTrue (is_live self.now) }
        ensures { IfSome (window_of self.now) (λ window. result ≡ window.visible) }
    {
        self.visible
    }

    /// Whether another window is shown otherwise, as far as a viewer sees.
    pub fn differs(&self, other: &Window) -> bool
        ensures same { result ≡ false → shown (window_of self.now) ≡ shown (window_of other.now) }
        ensures other { result ≡ true → shown (window_of self.now) ≢ shown (window_of other.now) }
    {
        let shown = self.is_shown();
        if shown != other.is_shown() {
            return true;
        }
        shown && self.looks_other(other)
    }

    // Whether another window looks otherwise, where both are shown.
    fn looks_other(&self, other: &Window) -> bool
        requires live { IsTrue (is_live self.now) }
        requires other_live { IsTrue (is_live other.now) }
        ensures same { result ≡ false
            → as_shown (state_of self.now) ≡ as_shown (state_of other.now) }
        ensures other { result ≡ true
            → as_shown (state_of self.now) ≢ as_shown (state_of other.now) }
    {
        let other_definition = seen(self.definition) != seen(other.definition);
        let other_attributes = self.attributes != other.attributes;
        if other_definition || other_attributes {
            return true;
        }
        self.cells.differs(&other.cells)
    }

    /// Whether the window is live and visible: whether there is something to see.
    pub fn is_shown(&self) -> bool
        ensures { result ≡ is_some (shown (window_of self.now)) }
    {
        self.live && self.visible
    }

    /// Takes over what another window is.
    pub fn copy_from(&mut self, other: &Window)
        ensures window { window_of self.new ≡ window_of other.now }
    {
        if !other.live {
            self.live = false;
            return;
        }
        self.cells.copy_from(&other.cells);
        self.live = true;
        self.visible = other.visible;
        self.definition = other.definition;
        self.attributes = other.attributes;
        self.row = other.row;
        self.col = other.col;
        self.pen = other.pen;
        self.colors = other.colors;
    }
}

// A definition without what isn't seen: the id, the visibility and the numbers of the styles.
fn seen(definition: Definition) -> Definition
    ensures { result ≡ record definition { id = 0; visible = true; ws = 0; ps = 0 } }
{
    Definition {
        id: 0,
        visible: true,
        ws: 0,
        ps: 0,
        ..definition
    }
}

// A new window takes style 1 where the definition names none.
fn style_or_first(style: u8) -> u8
    ensures { result ≡ style_or_first style }
{
    if style == 0 { 1 } else { style }
}

// The attributes of a window style, or where the definition names none those that there were.
fn window_style_or(style: u8, attributes: WinAttr) -> WinAttr
    requires { style < 8 }
    ensures { result ≡ (if style == 0 then attributes else window_style style) }
{
    if style == 0 {
        attributes
    } else {
        window_style(style)
    }
}

// The same of a pen style.
fn pen_style_or(style: u8, pen: PenAttr, colors: PenColors) -> (PenAttr, PenColors)
    requires { style < 8 }
    ensures attributes { result.0 ≡ (if style == 0 then pen else (pen_style style).0) }
    ensures colors { result.1 ≡ (if style == 0 then colors else (pen_style style).1) }
{
    if style == 0 {
        (pen, colors)
    } else {
        pen_style(style)
    }
}
