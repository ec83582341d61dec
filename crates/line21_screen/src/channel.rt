ghost use Rattle.std.specs.Prelude.{◌≤◌, IsTrue};
ghost use Rattle.line21_screen.specs.Rows.{has_rows};

use crate::memory::Memory;
use crate::modes::Mode;
use crate::pens::Pen;
use crate::rules::{acts_always, mid_row_style};
use line21_codes::{Cell, Colour, Control, Style, basic_char, extended_char, special_char};
use std::alloc::{AllocError, Global};
use std::mem;

// The lowest row.
const LAST_ROW: u8 = 15;

/// A data channel of a field.
#[derive(Drop)]
pub(crate) struct Channel {
    pub(crate) displayed: Memory,
    pub(crate) hidden: Memory,
    pub(crate) mode: Mode,
    pub(crate) base: u8,
    pub(crate) text: bool,
    pub(crate) pen: Pen,
    pub ghost base_from: { 1 ≤ base },
    pub ghost base_to: { base ≤ 15 },
    pub ghost rows: { IsTrue (has_rows mode) },
}

impl Channel {
    ghost use Rattle.std.specs.Prelude.{◌≡◌, ◌<◌, ◌||◌, ◌-◌, max, IfOk, Some, None, false};
    ghost use Rattle.line21_screen.specs.Grid.{with_cell};
    ghost use Rattle.line21_screen.specs.Windows.{moved};
    ghost use Rattle.line21_screen.specs.Channels.{new_channel, takes_captions};
    ghost use Rattle.line21_screen.specs.Editing.{edited, with_cell_at_pen, printed, special, backspaced, extended, row_deleted, carriage_return, addressed, with_pen};
    ghost use Rattle.line21_screen.specs.Pens.{with_style, mid_row_style};
    ghost use Rattle.line21_screen.specs.Controls.{rolled_up, acted, after_control, IsPossible};
    ghost use Rattle.line21_screen.specs.Fields.{after_character, after_text};
    ghost use Rattle.line21_screen.specs.Objects.{grid_of, channel_of};

    // A channel that had no code yet.
    pub(crate) fn new(alloc: Global) -> Result<Channel, AllocError>
        ensures { IfOk result (λ channel. channel_of channel ≡ new_channel) }
    {
        Ok(Channel {
            displayed: Memory::new(alloc)?,
            hidden: Memory::new(alloc)?,
            mode: Mode::Off,
            base: LAST_ROW,
            text: false,
            pen: Pen::at_row(LAST_ROW),
        })
    }

    // Makes it as it was before its first code.
    pub(crate) fn reset(&mut self)
        ensures { channel_of self.new ≡ new_channel }
    {
        self.displayed.clear();
        self.hidden.clear();
        self.mode = Mode::Off;
        self.base = LAST_ROW;
        self.text = false;
        self.pen = Pen::at_row(LAST_ROW);
    }

    // A control code of this channel.
    pub(crate) fn control(&mut self, control: Control)
        requires { IsPossible control }
        ensures { channel_of self.new ≡ after_control control (channel_of self.old) }
    {
        if acts_always(control) || self.takes_captions() {
            self.act(control);
        }
    }

    // The two bytes of a text pair.
    pub(crate) fn text(&mut self, first: u8, second: u8)
        ensures { channel_of self.new ≡ after_text first second (channel_of self.old) }
    {
        self.character(basic_char(first));
        self.character(basic_char(second));
    }

    // A character of a text pair, or none.
    fn character(&mut self, ch: Option<char>)
        ensures { channel_of self.new ≡ after_character ch (channel_of self.old) }
    {
        if let Some(ch) = ch {
            if self.takes_captions() {
                self.print(ch);
            }
        }
    }

    // Whether characters and editing codes are for the captions.
    fn takes_captions(&self) -> bool
        ensures { result ≡ takes_captions (channel_of self.now) }
    {
        !self.text && !matches!(self.mode, Mode::Off)
    }

    // What a code does where it acts.
    fn act(&mut self, control: Control)
        requires { IsPossible control }
        ensures { channel_of self.new ≡ acted control (channel_of self.old) }
    {
        match control {
            Control::Rcl => self.resume(Mode::PopOn),
            Control::Rdc => self.resume(Mode::PaintOn),
            Control::Ru(rows) => self.roll_up(rows),
            Control::Tr | Control::Rtd => self.text = true,
            Control::Eoc => self.flip(),
            Control::Enm => self.hidden.clear(),
            Control::Edm => self.displayed.clear(),
            Control::Bs => self.backspace(),
            Control::Der => self.delete_to_end_of_row(),
            Control::Extended { set, byte } => self.extended(extended_char(set, byte)),
            Control::Special(byte) => self.special(special_char(byte)),
            Control::MidRow { colour, underline } => self.mid_row(colour, underline),
            Control::Fon => self.print(' '),
            Control::Tab(columns) => self.pen = self.pen.tabbed(columns),
            Control::Preamble { row, col, style } => self.address(row, col, style),
            Control::Cr => self.carriage_return(),
            Control::Skipped => {}
        }
    }

    // Sets a mode and ends text mode.
    fn resume(&mut self, mode: Mode)
        requires { IsTrue (has_rows mode) }
        ensures { channel_of self.new ≡ record (channel_of self.old) { mode = mode; text = false } }
    {
        self.mode = mode;
        self.text = false;
    }

    // Roll-up captions of this many rows. From another mode they begin at the lowest row; else the rows
    // and the pen move down where there is no room above the base row.
    fn roll_up(&mut self, rows: u8)
        requires from { 2 ≤ rows }
        requires to { rows ≤ 4 }
        ensures { channel_of self.new ≡ rolled_up self.old.mode rows (channel_of self.old) }
    {
        match self.mode {
            Mode::RollUp(_) => {
                let base = self.base.max(rows);
                self.move_window(rows, base);
                self.pen = self.pen.in_row(base);
            }
            _ => {
                self.displayed.clear();
                self.hidden.clear();
                self.base = LAST_ROW;
                self.pen = Pen::at_row(LAST_ROW);
            }
        }
        self.resume(Mode::RollUp(rows));
    }

    // Moves the rows that end at the base row, so that they end at another, and erases all else.
    fn move_window(&mut self, rows: u8, base: u8)
        requires from { 1 ≤ base }
        requires to { base ≤ 15 }
        ensures { channel_of self.new ≡ record (channel_of self.old) {
          displayed = moved (grid_of self.old.displayed.cells.items) rows self.old.base base;
          base = base;
        } }
    {
        self.displayed.move_rows(rows, self.base, base);
        self.base = base;
    }

    // Swaps the memories, and sets pop-on captions.
    fn flip(&mut self)
        ensures { channel_of self.new ≡ acted Control.Eoc (channel_of self.old) }
    {
        mem::swap(&mut self.displayed, &mut self.hidden);
        self.resume(Mode::PopOn);
    }

    // Writes a cell of the memory that the mode writes, or removes it.
    fn put(&mut self, row: u8, col: u8, cell: Option<Cell>)
        requires row_from { 1 ≤ row }
        requires row_to { row ≤ 15 }
        requires col { col < 32 }
        ensures { channel_of self.new
            ≡ edited (λ g. with_cell g row col cell) (channel_of self.old) }
    {
        match self.mode {
            Mode::Off => {}
            Mode::PopOn => self.hidden.put(row, col, cell),
            Mode::PaintOn | Mode::RollUp(_) => self.displayed.put(row, col, cell),
        }
    }

    // Writes a cell at the pen, or removes it, and moves the pen on.
    fn write(&mut self, cell: Option<Cell>)
        ensures { channel_of self.new ≡ with_cell_at_pen cell (channel_of self.old) }
    {
        let pen = self.pen;
        self.put(pen.row, pen.print_column(), cell);
        self.pen = pen.advanced();
    }

    // A character in the pen's style.
    fn print(&mut self, ch: char)
        ensures { channel_of self.new ≡ printed ch (channel_of self.old) }
    {
        let style = self.pen.style;
        self.write(Some(Cell { ch, style }));
    }

    // A special character; the transparent space is none.
    fn special(&mut self, ch: Option<char>)
        ensures { channel_of self.new ≡ special ch (channel_of self.old) }
    {
        match ch {
            Some(ch) => self.print(ch),
            None => self.write(None),
        }
    }

    // An extended character, which takes back its fallback.
    fn extended(&mut self, ch: Option<char>)
        ensures { channel_of self.new ≡ extended ch (channel_of self.old) }
    {
        if let Some(ch) = ch {
            self.backspace();
            self.print(ch);
        }
    }

    // Moves the pen left by one, and removes that cell.
    fn backspace(&mut self)
        ensures { channel_of self.new ≡ backspaced (channel_of self.old) }
    {
        let pen = self.pen;
        if pen.col != 0 {
            let col = pen.col - 1;
            self.put(pen.row, col, None);
            self.pen = pen.at_column(col);
        }
    }

    // Removes the cells from the pen on.
    fn delete_to_end_of_row(&mut self)
        ensures { channel_of self.new ≡ row_deleted (channel_of self.old) }
    {
        let (row, col) = (self.pen.row, self.pen.col);
        match self.mode {
            Mode::Off => {}
            Mode::PopOn => self.hidden.clear_from(row, col),
            Mode::PaintOn | Mode::RollUp(_) => self.displayed.clear_from(row, col),
        }
    }

    // Sets the pen's style, and prints a space in it.
    fn mid_row(&mut self, colour: Option<Colour>, underline: bool)
        ensures { channel_of self.new
            ≡ acted (Control.MidRow colour underline) (channel_of self.old) }
    {
        self.pen = self
            .pen
            .with_style(mid_row_style(colour, underline, self.pen.style));
        self.print(' ');
    }

    // Moves the window's rows up by one; the pen goes to the beginning of the empty base row.
    fn carriage_return(&mut self)
        ensures { channel_of self.new ≡ carriage_return self.old.mode (channel_of self.old) }
    {
        if let Mode::RollUp(rows) = self.mode {
            self.displayed.move_rows(rows - 1, self.base, self.base - 1);
            self.pen = Pen::at_row(self.base);
        }
    }

    // A preamble, which moves the window of roll-up captions.
    fn address(&mut self, row: u8, col: u8, style: Style)
        requires row_from { 1 ≤ row }
        requires row_to { row ≤ 15 }
        requires col { col ≤ 28 }
        ensures { channel_of self.new
            ≡ addressed self.old.mode row col style (channel_of self.old) }
    {
        let mut row = row;
        if let Mode::RollUp(rows) = self.mode {
            row = row.max(rows);
            self.move_window(rows, row);
        }
        self.pen = Pen { row, col, style };
    }
}
