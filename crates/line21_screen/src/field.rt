ghost use Rattle.std.specs.Prelude.{◌≡◌};
ghost use Rattle.line21_codes.specs.Reading.{code_of};
ghost use Rattle.line21_screen.specs.Codes.{IsPossibleCode};
ghost use Rattle.line21_screen.specs.Fields.{begins_xds};

use crate::channel::Channel;
use crate::memory::Memory;
use crate::modes::Mode;
use line21_codes::{Cell, Code, DataChannel, Doubler, FieldNumber, NULL_PAIR, Pair, read_pair};
use std::alloc::{AllocError, Global};

/// The receiver of one field of line 21: the caption memories of its two data channels.
#[derive(Drop)]
pub struct Field {
    // The field of the picture.
    in_field: FieldNumber,
    first: Channel,
    second: Channel,
    // The selected data channel.
    selected: DataChannel,
    // Whether extended data are under way.
    xds: bool,
    doubler: Doubler,
}

impl Field {
    ghost use Rattle.std.specs.Prelude.{◌<◌, ◌≤◌, List, [], ◌∷◌, IfOk};
    ghost use Rattle.line21_codes.specs.declared.channels.FieldNumber.{FieldNumber};
    ghost use Rattle.line21_codes.specs.declared.pairs.Pair.{Pair};
    ghost use Rattle.line21_codes.specs.Channels.{numbered_field, numbered_channel};
    ghost use Rattle.line21_codes.specs.Repeats.{Waits};
    ghost use Rattle.line21_screen.specs.Fields.{channel, on_channel, after_text, after_code};
    ghost use Rattle.line21_screen.specs.Controls.{after_control, IsPossible};
    ghost use Rattle.line21_screen.specs.Meaning.{after};
    ghost use Rattle.line21_codes.specs.NullPairs.{null_pair};
    ghost use Rattle.line21_screen.specs.Objects.{channel_of, field_of, grid_in, Leads};

    /// A field that had no pair yet: its memories are empty, no mode is set, and data channel 1 is
    /// selected. All memory that it ever takes is taken here.
    pub fn new(alloc: Global, second_field: bool) -> Result<Field, AllocError>
        ensures { IfOk result (Leads (numbered_field second_field) []) }
    {
        Ok(Field {
            in_field: FieldNumber::from_second(second_field),
            first: Channel::new(alloc)?,
            second: Channel::new(alloc)?,
            selected: DataChannel::One,
            xds: false,
            doubler: Doubler::new(),
        })
    }

    /// Makes it as it was before its first pair.
    pub fn reset(&mut self)
        ensures { (in_field : FieldNumber) (before : List Pair) → Leads in_field before self.old
            → Leads in_field [] self.new }
    {
        self.first.reset();
        self.second.reset();
        self.selected = DataChannel::One;
        self.xds = false;
        self.doubler = Doubler::new();
    }

    /// Takes the field's next pair, of whatever bytes: one with bad parity counts as null. The repeat
    /// of a control pair is ignored, and each other pair does what its code says (CTA-608-E,
    /// 47 CFR 79.101).
    #[inline(always)]
    pub fn apply(&mut self, pair: Pair)
        ensures { (in_field : FieldNumber) (before : List Pair) → Leads in_field before self.old
            → Leads in_field (pair ∷ before) self.new }
    {
        if pair.is_null() {
            self.pass_null();
            return;
        }
        if !self.doubler.step(pair) {
            self.act(code(pair));
        }
    }

    // Takes the field's next pair, which is null: it does nothing, and after it no control pair waits for its repeat.
    fn pass_null(&mut self)
        ensures { (in_field : FieldNumber) (before : List Pair) → Leads in_field before self.old
            → Leads in_field (null_pair ∷ before) self.new }
    {
        let _ignored = self.doubler.step(NULL_PAIR);
    }

    /// The displayed cell of data channel 1 or 2 at a row, 1 to 15, and a column, 0 to 31.
    pub fn cell(&self, second_channel: bool, row: u8, col: u8) -> Option<Cell>
        requires row_from { 1 ≤ row }
        requires row_to { row ≤ 15 }
        requires col { col < 32 }
        ensures shown { result ≡ (channel (numbered_channel second_channel)
            (field_of self.now)).displayed row col }
        ensures after { (in_field : FieldNumber) (before : List Pair)
            → Leads in_field before self.now
            → result ≡ (channel (numbered_channel second_channel)
            (after in_field before)).displayed row col }
    {
        let channel = self.channel(DataChannel::from_second(second_channel));
        channel.displayed.cell(row, col)
    }

    /// The displayed memory of data channel 1 or 2.
    pub fn displayed(&self, data_channel: DataChannel) -> &Memory
        ensures { grid_in result.now ≡ (channel data_channel (field_of self.now)).displayed }
    {
        &self.channel(data_channel).displayed
    }

    /// The mode of data channel 1 or 2.
    pub fn mode(&self, second_channel: bool) -> Mode
        ensures { (in_field : FieldNumber) (before : List Pair) → Leads in_field before self.now
            → result ≡ (channel (numbered_channel second_channel) (after in_field before)).mode }
    {
        self.channel(DataChannel::from_second(second_channel)).mode
    }

    // Data channel 1 or 2.
    fn channel(&self, data_channel: DataChannel) -> &Channel
        ensures { channel_of result.now ≡ channel data_channel (field_of self.now) }
    {
        match data_channel {
            DataChannel::One => &self.first,
            DataChannel::Two => &self.second,
        }
    }

    // What a code does.
    fn act(&mut self, code: Code)
        requires { IsPossibleCode code }
        ensures state { field_of self.new ≡ after_code self.old.in_field code (field_of self.old) }
        ensures of_field { self.new.in_field ≡ self.old.in_field }
        ensures repeats { self.new.doubler ≡ self.old.doubler }
    {
        match code {
            Code::Null => {}
            Code::Text(first, second) => {
                if !self.xds {
                    self.text(first, second);
                }
            }
            Code::Xds(first, _) => self.xds = begins_xds(self.in_field, first),
            Code::Control { second, control } => {
                self.selected = DataChannel::from_second(second);
                self.xds = false;
                match self.selected {
                    DataChannel::One => self.first.control(control),
                    DataChannel::Two => self.second.control(control),
                }
            }
        }
    }

    // The two bytes of a text pair.
    fn text(&mut self, first: u8, second: u8)
        ensures state { field_of self.new
            ≡ on_channel self.old.selected (after_text first second) (field_of self.old) }
        ensures of_field { self.new.in_field ≡ self.old.in_field }
        ensures repeats { self.new.doubler ≡ self.old.doubler }
    {
        match self.selected {
            DataChannel::One => self.first.text(first, second),
            DataChannel::Two => self.second.text(first, second),
        }
    }
}

// Whether extended data are under way after a pair of theirs with this first byte.
fn begins_xds(in_field: FieldNumber, first: u8) -> bool
    ensures { result ≡ begins_xds in_field first }
{
    match in_field {
        FieldNumber::One => false,
        FieldNumber::Two => first < 0x0F,
    }
}

// The code of a pair; one with bad parity counts as null.
fn code(pair: Pair) -> Code
    ensures code { result ≡ code_of pair }
    ensures possible { IsPossibleCode result }
{
    match read_pair(pair) {
        Ok(code) => code,
        Err(_) => Code::Null,
    }
}
