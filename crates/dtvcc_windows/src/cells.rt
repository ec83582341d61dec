ghost use Rattle.std.specs.Prelude.{◌≡◌, ◌+◌, ◌-◌, ◌*◌, ◌≤◌, ◌<◌, None, length, vec_len, vec_capacity};
ghost use Rattle.std.specs.List.{AllWithin, CopiedTo, SameBelow, SameFrom};
ghost use Rattle.dtvcc_windows.specs.Raising.{HasRaised};

use dtvcc_codes::{Definition, PenAttr, PenColors};
use std::alloc::{AllocError, Global};
use std::ops::Range;

// The most rows that a window can have.
const ROWS: u8 = 16;

// The most columns.
const COLUMNS: usize = 64;

// The places of the largest window.
const PLACES: usize = 1024;

/// A character in a window, with the attributes and colours that the pen had when it was written (CTA-708-E, pens).
#[derive(Clone, Copy, PartialEq, Eq)]
pub struct DCell {
    /// The character.
    pub ch: char,
    /// How it is written.
    pub pen: PenAttr,
    /// In what colours.
    pub colors: PenColors,
}

// The cells of a window of up to 16 rows of 64 columns. The memory is taken at the start, and filled when the window is first
// made. It keeps the places between which all cells stand, so that a window with few cells costs little.
#[derive(Drop)]
pub(crate) struct Cells {
    pub(crate) places: Vec<Option<DCell>>,
    // No place before this one has a cell.
    first: usize,
    // And none from this one on.
    behind: usize,
    pub ghost room: { 1024 ≤ vec_capacity places },
    pub ghost whole: { 0 < vec_len places → vec_len places ≡ 1024 },
    pub ghost behind_to: { behind ≤ 1024 },
    pub ghost none_above: { AllWithin (λ cell. cell ≡ None) places.items 0 first },
    pub ghost none_below: { AllWithin (λ cell. cell ≡ None) places.items behind 1024 },
}

impl Cells {
    ghost use Rattle.std.specs.Prelude.{◌≢◌, ℕ, true, false, IfOk};
    ghost use Rattle.dtvcc_windows.specs.Places.{no_cells, raised, window_row, with_window_cell, without_cells};
    ghost use Rattle.dtvcc_windows.specs.Sizes.{IsWithin, cells_in};
    ghost use Rattle.dtvcc_windows.specs.Lists.{listed_cells};

    // Takes the memory, and fills none of it.
    pub(crate) fn new(alloc: Global) -> Result<Cells, AllocError>
        ensures { IfOk result (λ cells. listed_cells cells.places.items ≡ no_cells) }
    {
        Ok(Cells {
            places: Vec::with_capacity(alloc, PLACES)?,
            first: 0,
            behind: PLACES,
        })
    }

    // The cell at a row and a column.
    pub(crate) fn cell(&self, row: u8, col: u8) -> Option<DCell>
        requires filled { vec_len self.now.places ≡ 1024 }
        requires row { row < 16 }
        requires col { col < 64 }
        ensures { result ≡ listed_cells self.now.places.items row col }
    {
        self.places[place(row, col)]
    }

    // The rows of 0 to 15 that can have a cell: all others have none.
    pub(crate) fn rows(&self) -> Range<u8>
        requires { vec_len self.now.places ≡ 1024 }
        ensures order { result.start ≤ result.end }
        ensures above { (row col : ℕ) → row < result.start
            → listed_cells self.now.places.items row col ≡ None }
        ensures below { (row col : ℕ) → result.end ≤ row
            → listed_cells self.now.places.items row col ≡ None }
    {
        if self.first >= self.behind {
            return 0..0;
        }
        let first = (self.first / COLUMNS) as u8;
        let last = ((self.behind - 1) / COLUMNS) as u8;
        first..last + 1
    }

    // What stands in a row, in this many columns.
    pub(crate) fn row(&self, row: u8, cols: u8) -> &[Option<DCell>]
        requires filled { vec_len self.now.places ≡ 1024 }
        requires row { row < 16 }
        requires cols { cols ≤ 64 }
        ensures { result.now ≡ window_row (listed_cells self.now.places.items) cols row }
    {
        let from = usize::from(row) * COLUMNS;
        &self.places[from..from + usize::from(cols)]
    }

    // Whether other cells have a place with another cell.
    pub(crate) fn differs(&self, other: &Cells) -> bool
        requires filled { vec_len self.now.places ≡ 1024 }
        requires other_filled { vec_len other.now.places ≡ 1024 }
        ensures same { result ≡ false
            → listed_cells self.now.places.items ≡ listed_cells other.now.places.items }
        ensures other { result ≡ true
            → listed_cells self.now.places.items ≢ listed_cells other.now.places.items }
    {
        let from = self.first.min(other.first);
        let to = self.behind.max(other.behind);
        from < to && self.places[from..to] != other.places[from..to]
    }

    // Takes over other cells.
    pub(crate) fn copy_from(&mut self, other: &Cells)
        requires { vec_len other.now.places ≡ 1024 }
        ensures cells { listed_cells self.new.places.items ≡ listed_cells other.now.places.items }
        ensures filled { vec_len self.new.places ≡ 1024 }
    {
        self.fill_up();
        let from = self.first.min(other.first);
        let to = self.behind.max(other.behind);
        copy_places(&mut self.places, &other.places, from, to);
        self.first = other.first;
        self.behind = other.behind;
    }

    // Fills the memory where it isn't filled yet.
    fn fill_up(&mut self)
        ensures { vec_len self.new.places ≡ 1024 }
    {
        if self.places.is_empty() {
            self.clear();
        }
    }

    // Writes a cell, or removes it.
    pub(crate) fn put(&mut self, row: u8, col: u8, cell: Option<DCell>)
        requires filled { vec_len self.old.places ≡ 1024 }
        requires row { row < 16 }
        requires col { col < 64 }
        ensures cells { listed_cells self.new.places.items
            ≡ with_window_cell (listed_cells self.old.places.items) row col cell }
        ensures filled { vec_len self.new.places ≡ 1024 }
    {
        let at = place(row, col);
        self.first = self.first.min(at);
        self.behind = self.behind.max(at + 1);
        self.places[at] = cell;
    }

    // Removes all cells, and fills the memory where it isn't filled yet.
    pub(crate) fn clear(&mut self)
        ensures cells { listed_cells self.new.places.items ≡ no_cells }
        ensures filled { vec_len self.new.places ≡ 1024 }
    {
        empty(&mut self.places, self.first, self.behind);
        self.first = PLACES;
        self.behind = 0;
    }

    // Removes the cells of a row from a column on.
    pub(crate) fn clear_from(&mut self, row: u8, col: u8)
        requires filled { vec_len self.old.places ≡ 1024 }
        requires row { row < 16 }
        requires col { col ≤ 64 }
        ensures cells { listed_cells self.new.places.items
            ≡ without_cells (listed_cells self.old.places.items) row col }
        ensures filled { vec_len self.new.places ≡ 1024 }
    {
        let from = usize::from(row) * COLUMNS;
        remove_cells(&mut self.places, from + usize::from(col), from + COLUMNS);
    }

    // Removes the cells outside of a size.
    fn keep(&mut self, rows: u8, cols: u8)
        requires filled { vec_len self.old.places ≡ 1024 }
        requires rows { rows ≤ 16 }
        requires cols { cols ≤ 64 }
        ensures cells { listed_cells self.new.places.items
            ≡ cells_in rows cols (listed_cells self.old.places.items) }
        ensures filled { vec_len self.new.places ≡ 1024 }
    {
        for row in 0..ROWS {
            self.clear_from(row, if row < rows { cols } else { 0 });
        }
    }

    // Keeps the cells that lie in the sizes of two definitions, where all lie in the first one's.
    pub(crate) fn refit(&mut self, old: &Definition, new: &Definition)
        requires filled { vec_len self.old.places ≡ 1024 }
        requires rows { new.now.rows ≤ 16 }
        requires cols { new.now.cols ≤ 64 }
        requires within { IsWithin old.now.rows old.now.cols (listed_cells self.old.places.items) }
        ensures cells { listed_cells self.new.places.items
            ≡ cells_in new.now.rows new.now.cols
            (cells_in old.now.rows old.now.cols (listed_cells self.old.places.items)) }
        ensures filled { vec_len self.new.places ≡ 1024 }
    {
        if new.rows < old.rows || new.cols < old.cols {
            self.keep(new.rows, new.cols);
        }
    }

    // All rows move up by one; the top one is lost.
    pub(crate) fn raise(&mut self)
        requires filled { vec_len self.old.places ≡ 1024 }
        ensures cells { listed_cells self.new.places.items
            ≡ raised (listed_cells self.old.places.items) }
        ensures filled { vec_len self.new.places ≡ 1024 }
    {
        raise_places(&mut self.places, self.first, self.behind);
        self.first = self.first.saturating_sub(COLUMNS);
        self.behind = self.behind.saturating_sub(COLUMNS);
    }
}

// Leaves no cell at any place, where none stands before a place and from another on.
fn empty(places: &mut Vec<Option<DCell>>, first: usize, behind: usize)
    requires room { 1024 ≤ vec_capacity places.old }
    requires whole { 0 < vec_len places.old → vec_len places.old ≡ 1024 }
    requires within { behind ≤ 1024 }
    requires none_above { AllWithin (λ cell. cell ≡ None) places.old.items 0 first }
    requires none_below { AllWithin (λ cell. cell ≡ None) places.old.items behind 1024 }
    ensures none { AllWithin (λ cell. cell ≡ None) places.new.items 0 1024 }
    ensures filled { vec_len places.new ≡ 1024 }
    ensures room { 1024 ≤ vec_capacity places.new }
{
    if places.is_empty() {
        fill(places);
    } else {
        remove_cells(places, first, behind);
    }
}

// Makes all places, without a cell.
fn fill(places: &mut Vec<Option<DCell>>)
    requires room { 1024 ≤ vec_capacity places.old }
    requires empty { vec_len places.old ≡ 0 }
    ensures none { AllWithin (λ cell. cell ≡ None) places.new.items 0 1024 }
    ensures filled { vec_len places.new ≡ 1024 }
    ensures room { 1024 ≤ vec_capacity places.new }
{
    for _ in 0..PLACES {
        places.push(None).unwrap();
    }
}

// Moves what stands at all places one row up, where no cell stands before a place and from another on.
fn raise_places(places: &mut [Option<DCell>], first: usize, behind: usize)
    requires length { length places.old ≡ 1024 }
    requires within { behind ≤ 1024 }
    requires none_above { AllWithin (λ cell. cell ≡ None) places.old 0 first }
    requires none_below { AllWithin (λ cell. cell ≡ None) places.old behind 1024 }
    ensures { HasRaised places.old places.new }
{
    let from = first.max(COLUMNS);
    if from < behind {
        places.copy_within(from..behind, from - COLUMNS);
    }
    remove_cells(places, behind.saturating_sub(COLUMNS), behind);
}

// Copies what stands at the places from one on, up to another, which is left out.
fn copy_places(places: &mut [Option<DCell>], other: &[Option<DCell>], from: usize, to: usize)
    requires length { length places.old ≡ 1024 }
    requires other_length { length other.now ≡ 1024 }
    requires within { to ≤ 1024 }
    ensures copied { CopiedTo other.now places.new from from (to - from) }
    ensures above { SameBelow places.old places.new from }
    ensures below { SameFrom places.old places.new to }
{
    if from < to {
        places[from..to].copy_from_slice(&other[from..to]);
    }
}

// Removes the cells from a place on, up to another, which is left out.
fn remove_cells(places: &mut [Option<DCell>], from: usize, to: usize)
    requires { to ≤ length places.old }
    ensures removed { AllWithin (λ cell. cell ≡ None) places.new from to }
    ensures above { SameBelow places.old places.new from }
    ensures below { SameFrom places.old places.new to }
{
    for place in from..to {
        places[place] = None;
    }
}

// The place of a row and a column among all cells.
fn place(row: u8, col: u8) -> usize
    requires row { row < 16 }
    requires col { col < 64 }
    ensures place { result ≡ row * 64 + col }
    ensures within { result < 1024 }
{
    usize::from(row) * COLUMNS + usize::from(col)
}
