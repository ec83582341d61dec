ghost use Rattle.std.specs.Prelude.{◌≡◌, ◌+◌, ◌-◌, ◌*◌, ◌≤◌, ◌<◌, None, length, vec_len};
ghost use Rattle.std.specs.List.{AllWithin, CopiedTo, SameBelow, SameFrom};

use line21_codes::Cell;
use std::alloc::{AllocError, Global};
use std::ops::Range;

// The rows of the caption area.
const ROWS: usize = 15;

// The columns of a row.
const COLUMNS: usize = 32;

// The places of the caption area.
const PLACES: usize = ROWS * COLUMNS;

/// A caption memory: the cells of 15 rows, of 32 columns each (CTA-608-E and 47 CFR 79.101, caption area).
///
/// It keeps the places between which all cells stand, so that a look at a memory with few cells costs little.
#[derive(Drop)]
pub struct Memory {
    pub(crate) cells: Vec<Option<Cell>>,
    // No place before this one has a cell.
    first: usize,
    // And none from this one on.
    behind: usize,
    pub ghost length: { vec_len cells ≡ 480 },
    pub ghost behind_to: { behind ≤ 480 },
    pub ghost none_above: { AllWithin (λ cell. cell ≡ None) cells.items 0 first },
    pub ghost none_below: { AllWithin (λ cell. cell ≡ None) cells.items behind 480 },
}

impl Memory {
    ghost use Rattle.std.specs.Prelude.{ℕ, false, IfOk};
    ghost use Rattle.line21_screen.specs.Differences.{grid_differs};
    ghost use Rattle.line21_screen.specs.Grid.{empty_grid, row_cells, with_cell, without_cells};
    ghost use Rattle.line21_screen.specs.Windows.{moved};
    ghost use Rattle.line21_screen.specs.Objects.{grid_in, grid_of, place};

    /// A memory without a cell. All memory that it ever takes is taken here.
    pub fn new(alloc: Global) -> Result<Memory, AllocError>
        ensures { IfOk result (λ memory. grid_in memory ≡ empty_grid) }
    {
        let mut cells = Vec::with_capacity(alloc, PLACES)?;
        for _ in 0..PLACES {
            cells.push(None)?;
        }
        Ok(Memory {
            cells,
            first: PLACES,
            behind: 0,
        })
    }

    /// The cell at a row, 1 to 15, and a column, 0 to 31.
    pub fn cell(&self, row: u8, col: u8) -> Option<Cell>
        requires row_from { 1 ≤ row }
        requires row_to { row ≤ 15 }
        requires col { col < 32 }
        ensures { result ≡ grid_in self.now row col }
    {
        self.cells[place(row, col)]
    }

    /// The rows that can have a cell, of 1 to 15: all others have none.
    pub fn rows(&self) -> Range<u8>
        ensures from { 1 ≤ result.start }
        ensures order { result.start ≤ result.end }
        ensures to { result.end ≤ 16 }
        ensures above { (row col : ℕ) → row < result.start → grid_in self.now row col ≡ None }
        ensures below { (row col : ℕ) → result.end ≤ row → grid_in self.now row col ≡ None }
    {
        if self.first >= self.behind {
            return 1..1;
        }
        let first = (self.first / COLUMNS) as u8;
        let last = ((self.behind - 1) / COLUMNS) as u8;
        first + 1..last + 2
    }

    /// What stands in a row, 1 to 15, column by column, 0 to 31.
    pub fn row(&self, row: u8) -> &[Option<Cell>]
        requires from { 1 ≤ row }
        requires to { row ≤ 15 }
        ensures cells { result.now ≡ row_cells (grid_in self.now) row }
        ensures long { length result.now ≡ 32 }
    {
        let from = usize::from(row - 1) * COLUMNS;
        &self.cells[from..from + COLUMNS]
    }

    /// Whether some place of another memory has another cell.
    pub fn differs(&self, other: &Memory) -> bool
        ensures told { result ≡ grid_differs (grid_in self.now) (grid_in other.now) }
        ensures same { result ≡ false → grid_in self.now ≡ grid_in other.now }
    {
        let from = self.first.min(other.first);
        let to = self.behind.max(other.behind);
        from < to && self.cells[from..to] != other.cells[from..to]
    }

    /// Takes over the cells of another memory.
    pub fn copy_from(&mut self, other: &Memory)
        ensures { grid_in self.new ≡ grid_in other.now }
    {
        let from = self.first.min(other.first);
        let to = self.behind.max(other.behind);
        copy_places(&mut self.cells, &other.cells, from, to);
        self.first = other.first;
        self.behind = other.behind;
    }

    // Writes a cell, or removes it.
    pub(crate) fn put(&mut self, row: u8, col: u8, cell: Option<Cell>)
        requires row_from { 1 ≤ row }
        requires row_to { row ≤ 15 }
        requires col { col < 32 }
        ensures { grid_of self.new.cells.items
            ≡ with_cell (grid_of self.old.cells.items) row col cell }
    {
        let at = place(row, col);
        self.first = self.first.min(at);
        self.behind = self.behind.max(at + 1);
        self.cells[at] = cell;
    }

    // Removes all cells.
    pub(crate) fn clear(&mut self)
        ensures { grid_of self.new.cells.items ≡ empty_grid }
    {
        remove_cells(&mut self.cells, self.first, self.behind);
        self.first = PLACES;
        self.behind = 0;
    }

    // Removes the cells of a row from a column on.
    pub(crate) fn clear_from(&mut self, row: u8, col: u8)
        requires row_from { 1 ≤ row }
        requires row_to { row ≤ 15 }
        requires col { col ≤ 32 }
        ensures { grid_of self.new.cells.items
            ≡ without_cells (grid_of self.old.cells.items) row col 32 }
    {
        for c in col..32u8 {
            self.put(row, c, None);
        }
    }

    // The rows that ended at the row `old` end at `new`, and all else is erased.
    pub(crate) fn move_rows(&mut self, rows: u8, old: u8, new: u8)
        requires old { old ≤ 15 }
        requires new { new ≤ 15 }
        ensures { grid_of self.new.cells.items ≡ moved (grid_of self.old.cells.items) rows old new }
    {
        let count = rows.min(old).min(new);
        let first = usize::from(new - count) * COLUMNS;
        let behind = usize::from(new) * COLUMNS;
        let cells = self.cells.as_mut_slice();
        copy_rows(cells, count, old, new);
        remove_cells(cells, self.first, first);
        remove_cells(cells, behind, self.behind);
        self.first = first;
        self.behind = behind;
    }
}

// Copies what stands at the places from one on, up to another, which is left out.
fn copy_places(cells: &mut [Option<Cell>], other: &[Option<Cell>], from: usize, to: usize)
    requires length { length cells.old ≡ 480 }
    requires other_length { length other.now ≡ 480 }
    requires within { to ≤ 480 }
    ensures copied { CopiedTo other.now cells.new from from (to - from) }
    ensures above { SameBelow cells.old cells.new from }
    ensures below { SameFrom cells.old cells.new to }
{
    if from < to {
        cells[from..to].copy_from_slice(&other[from..to]);
    }
}

// Copies this many rows that end at the row `old` to those that end at `new`.
fn copy_rows(cells: &mut [Option<Cell>], count: u8, old: u8, new: u8)
    requires length { length cells.old ≡ 480 }
    requires old { count ≤ old }
    requires old_to { old ≤ 15 }
    requires new { count ≤ new }
    requires new_to { new ≤ 15 }
    ensures copied { CopiedTo cells.old cells.new ((old - count) * 32) ((new - count) * 32)
        (count * 32) }
    ensures above { SameBelow cells.old cells.new ((new - count) * 32) }
    ensures below { SameFrom cells.old cells.new (new * 32) }
{
    if old != new {
        let rows = usize::from(old - count) * COLUMNS..usize::from(old) * COLUMNS;
        cells.copy_within(rows, usize::from(new - count) * COLUMNS);
    }
}

// Removes the cells from a place on, up to another, which is left out.
fn remove_cells(cells: &mut [Option<Cell>], from: usize, to: usize)
    requires { to ≤ length cells.old }
    ensures removed { AllWithin (λ cell. cell ≡ None) cells.new from to }
    ensures above { SameBelow cells.old cells.new from }
    ensures below { SameFrom cells.old cells.new to }
{
    for place in from..to {
        cells[place] = None;
    }
}

// The place of a row and a column among all cells.
fn place(row: u8, col: u8) -> usize
    requires row_from { 1 ≤ row }
    requires row_to { row ≤ 15 }
    requires col { col < 32 }
    ensures place { result ≡ (row - 1) * 32 + col }
    ensures within { result < 480 }
{
    usize::from(row - 1) * COLUMNS + usize::from(col)
}
