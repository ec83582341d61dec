ghost use Rattle.std.specs.Prelude.{◌≡◌, ◌≢◌, ◌⊎◌, ◌<◌, ◌≤◌, ℕ, List, [], None, Some, IfOk};
ghost use Rattle.caption_packets.specs.FrameWords.{IsFrame, cc_data_words};
ghost use Rattle.caption_streams.specs.Receivings.{reception_of};
ghost use Rattle.caption_streams.specs.Receptions.{HasFed, StandsBehind, service_behind};
ghost use Rattle.caption_streams.specs.declared.receiving.Receiving.{Receiving as ReceivingOf};
ghost use Rattle.cc_base.specs.declared.rate.Rate.{Rate as RateOf};
ghost use Rattle.cdp_packets.specs.Packets.{Frame};
ghost use Rattle.services_files.specs.CaptionChannel.{caption_channel};
ghost use Rattle.words_files.specs.Offences.{IsFileUnder};
ghost use Rattle.ccsuite_c.specs.Codes.{argument_code, closed_code};
ghost use Rattle.ccsuite_c.specs.Grids.{GridAnswer, WindowGridAnswer};
ghost use Rattle.ccsuite_c.specs.Handles.{HasNoReceiver, StaysSo, state_in};
ghost use Rattle.ccsuite_c.specs.Receivers.{BeginsReceiving, CellAnswer, ChangedAnswer, ChangesAnswer, EndAnswer, FrameAnswer, HandsOut, HasCellPlace, HasWindowPlace, OpenedReceiver, ReceivesAnswer, ScreensAnswer, WindowAnswer, WindowCellAnswer};
ghost use Rattle.ccsuite_c.specs.States.{IsNoReceiver, WasFed};
ghost use Rattle.ccsuite_c.specs.Told.{read_so};
ghost use Rattle.ccsuite_c.specs.declared.state.State.TheVariants as held;

use crate::cells::{
    TextCell, WindowCell, WindowSeen, chan_of, text_cell, window_cell, window_seen,
};
use crate::grids::{GRID_CELLS, cell_count, tell_grid, tell_window_grid};
use crate::handle::Handle;
use crate::state::State;
use crate::told::{ARGUMENT, CLOSED, FedBytes, MEMORY, NONE, NOTHING, ROOM, tell, tell_end};
use caption_packets::words_of_cc_data;
use caption_streams::{Receiving, Reception};
use std::alloc::{AllocError, Global};

/// The last whole frame.
#[repr(C)]
#[derive(Clone, Copy, PartialEq, Eq)]
pub struct FrameSeen {
    /// Its number: how many frames came before it; by the counters of the frames, where some may be missing.
    pub number: u64,
    /// How many frames are missing right before it.
    pub missing: u64,
    /// The number of whole frames.
    pub frames: u32,
    /// Zeros, for fields to come.
    pub reserved: [u32; 3],
}

/// What is shown otherwise than before.
#[repr(C)]
#[derive(Clone, Copy, PartialEq, Eq)]
pub struct ChangedSeen {
    /// The services, each the bit of its number, 1 to 63.
    pub services: u64,
    /// The channels, bit 0 of CC1 to bit 3 of CC4.
    pub channels: u32,
    /// Zeros, for fields to come.
    pub reserved: [u32; 3],
}

/// Opens a receiver that was fed nothing, of words of which frames may be missing where `conceals` says so. What the handle held before is
/// freed: 0. 4 where memory isn't found, and then the handle is closed.
#[unsafe(no_mangle)]
pub extern "C" fn ccsuite_receiver_open(alloc: Global, receiver: &mut Handle, conceals: bool) -> u32
    ensures { OpenedReceiver conceals result (state_in receiver.new) }
{
    let _ = receiver.take(alloc);
    let Ok(made) = open(alloc, conceals) else {
        return MEMORY;
    };
    *receiver = Handle::of(made);
    0
}

// A receiver that was fed nothing.
fn open(alloc: Global, conceals: bool) -> Result<Box<State>, AllocError>
    ensures begins { IfOk result (λ state. (r : ReceivingOf)
        × (state.value ≡ held.Receiving r) × BeginsReceiving conceals r) }
    ensures fed { IfOk result (λ state. WasFed state.value) }
{
    let made = begin(alloc, conceals)?;
    match Box::new(alloc, State::Receiving(made)) {
        Ok(state) => Ok(state),
        Err(_) => Err(AllocError),
    }
}

fn begin(alloc: Global, conceals: bool) -> Result<Receiving, AllocError>
    ensures { IfOk result (BeginsReceiving conceals) }
{
    if conceals {
        Receiving::concealing(alloc)
    } else {
        Receiving::new(alloc)
    }
}

/// Feeds bytes, up to the end of an ancillary packet: 0. 32 where there is no open receiver, 6 where a word is refused, and from then on,
/// 34 where 4,294,967,295 frames have ended.
#[unsafe(no_mangle)]
pub extern "C" fn ccsuite_receiver_feed(
    alloc: Global,
    receiver: &mut Handle,
    bytes: &[u8],
    fed: &mut FedBytes,
) -> u32
    ensures feeds { (r : ReceivingOf) (before : List ℕ)
        → state_in receiver.old ≡ Some (held.Receiving r)
        → HasFed before (reception_of r)
        → ReceivesAnswer before bytes.now r result fed.new (state_in receiver.new) }
    ensures closed { HasNoReceiver (state_in receiver.old)
        → (result ≡ closed_code) × (fed.new ≡ read_so 0 0)
        × (state_in receiver.new ≡ state_in receiver.old) }
{
    match receiver.take(alloc) {
        None => {
            *fed = NOTHING;
            CLOSED
        }
        Some(mut state) => {
            let code = feed(&mut state, bytes, fed);
            *receiver = Handle::of(state);
            code
        }
    }
}

fn feed(state: &mut State, bytes: &[u8], fed: &mut FedBytes) -> u32
    requires { WasFed state.old }
    ensures feeds { (r : ReceivingOf) (before : List ℕ) → state.old ≡ held.Receiving r
        → HasFed before (reception_of r)
        → ReceivesAnswer before bytes.now r result fed.new (Some state.new) }
    ensures closed { IsNoReceiver state.old
        → (result ≡ closed_code) × (fed.new ≡ read_so 0 0) × (state.new ≡ state.old) }
    ensures on { WasFed state.new }
{
    match state {
        State::Receiving(receiving) => feed_on(receiving, bytes, fed),
        _ => {
            *fed = NOTHING;
            CLOSED
        }
    }
}

fn feed_on(receiving: &mut Receiving, bytes: &[u8], fed: &mut FedBytes) -> u32
    requires { (before : List ℕ) × HasFed before (reception_of receiving.old) }
    ensures feeds { (before : List ℕ) → HasFed before (reception_of receiving.old)
        → ReceivesAnswer before bytes.now receiving.old result fed.new
        (Some (held.Receiving receiving.new)) }
    ensures on { (after : List ℕ) × HasFed after (reception_of receiving.new) }
{
    tell(receiving.feed(bytes), fed)
}

/// Feeds the words that carry triplets of cc_data, three bytes each, with the code of a rate, 1 to 8, and a counter, as
/// `ccsuite_words_from_cc_data` makes them. 1 where it makes none, and then nothing is fed; else what `ccsuite_receiver_feed` answers.
#[unsafe(no_mangle)]
pub extern "C" fn ccsuite_receiver_feed_cc_data(
    alloc: Global,
    receiver: &mut Handle,
    cc_data: &[u8],
    rate: u32,
    counter: u32,
    fed: &mut FedBytes,
) -> u32
    ensures feeds { (r : ReceivingOf) (before : List ℕ) (rate_is : RateOf)
        → state_in receiver.old ≡ Some (held.Receiving r)
        → HasFed before (reception_of r) → IsFrame cc_data.now rate counter rate_is
        → ReceivesAnswer before (cc_data_words cc_data.now rate_is counter)
        r result fed.new (state_in receiver.new) }
    ensures argument { (r : ReceivingOf) → state_in receiver.old ≡ Some (held.Receiving r)
        → ((rate_is : RateOf) → IsFrame cc_data.now rate counter rate_is → ⊥)
        → (result ≡ argument_code) × (fed.new ≡ read_so 0 0)
        × (state_in receiver.new ≡ state_in receiver.old) }
    ensures closed { HasNoReceiver (state_in receiver.old)
        → (result ≡ closed_code) × (fed.new ≡ read_so 0 0)
        × (state_in receiver.new ≡ state_in receiver.old) }
{
    match receiver.take(alloc) {
        None => {
            *fed = NOTHING;
            CLOSED
        }
        Some(mut state) => {
            let code = feed_cc_data(&mut state, cc_data, rate, counter, fed);
            *receiver = Handle::of(state);
            code
        }
    }
}

fn feed_cc_data(
    state: &mut State,
    cc_data: &[u8],
    rate: u32,
    counter: u32,
    fed: &mut FedBytes,
) -> u32
    requires { WasFed state.old }
    ensures feeds { (r : ReceivingOf) (before : List ℕ) (rate_is : RateOf)
        → state.old ≡ held.Receiving r
        → HasFed before (reception_of r) → IsFrame cc_data.now rate counter rate_is
        → ReceivesAnswer before (cc_data_words cc_data.now rate_is counter)
        r result fed.new (Some state.new) }
    ensures argument { (r : ReceivingOf) → state.old ≡ held.Receiving r
        → ((rate_is : RateOf) → IsFrame cc_data.now rate counter rate_is → ⊥)
        → (result ≡ argument_code) × (fed.new ≡ read_so 0 0) × (state.new ≡ state.old) }
    ensures closed { IsNoReceiver state.old
        → (result ≡ closed_code) × (fed.new ≡ read_so 0 0) × (state.new ≡ state.old) }
    ensures on { WasFed state.new }
{
    match words_of_cc_data(cc_data, rate, counter) {
        Some(words) => feed(state, &words, fed),
        None => {
            *fed = NOTHING;
            if state.receiving().is_some() {
                ARGUMENT
            } else {
                CLOSED
            }
        }
    }
}

/// Tells whether the words may end after the bytes that were fed: 0. 32 where there is no open receiver, 6 where a word is refused, or
/// where the last bytes don't end a packet.
#[unsafe(no_mangle)]
pub extern "C" fn ccsuite_receiver_finish(
    alloc: Global,
    receiver: &mut Handle,
    fed: &mut FedBytes,
) -> u32
    ensures end { (r : ReceivingOf) (bytes : List ℕ)
        → state_in receiver.old ≡ Some (held.Receiving r)
        → HasFed bytes (reception_of r)
        → EndAnswer bytes result fed.new }
    ensures file { (r : ReceivingOf) (bytes : List ℕ) (frames : List Frame)
        → state_in receiver.old ≡ Some (held.Receiving r)
        → HasFed bytes (reception_of r) → IsFileUnder caption_channel frames bytes
        → result ≡ 0 }
    ensures closed { HasNoReceiver (state_in receiver.old)
        → (result ≡ closed_code) × (fed.new ≡ read_so 0 0) }
    ensures kept { state_in receiver.new ≡ state_in receiver.old }
{
    match receiver.take(alloc) {
        None => {
            *fed = NOTHING;
            CLOSED
        }
        Some(state) => {
            let code = finish(&state, fed);
            *receiver = Handle::of(state);
            code
        }
    }
}

fn finish(state: &State, fed: &mut FedBytes) -> u32
    ensures end { (r : ReceivingOf) (bytes : List ℕ) → state.now ≡ held.Receiving r
        → HasFed bytes (reception_of r)
        → EndAnswer bytes result fed.new }
    ensures file { (r : ReceivingOf) (bytes : List ℕ) (frames : List Frame)
        → state.now ≡ held.Receiving r
        → HasFed bytes (reception_of r) → IsFileUnder caption_channel frames bytes
        → result ≡ 0 }
    ensures closed { IsNoReceiver state.now
        → (result ≡ closed_code) × (fed.new ≡ read_so 0 0) }
{
    match state.receiving() {
        Some(receiving) => finish_behind(receiving.reception(), fed),
        None => {
            *fed = NOTHING;
            CLOSED
        }
    }
}

fn finish_behind(reception: &Reception, fed: &mut FedBytes) -> u32
    ensures end { (bytes : List ℕ) → HasFed bytes reception.now → EndAnswer bytes result fed.new }
    ensures file { (bytes : List ℕ) (frames : List Frame) → HasFed bytes reception.now
        → IsFileUnder caption_channel frames bytes
        → result ≡ 0 }
{
    tell_end(reception.finish(), fed)
}

/// Tells the last whole frame: 0. 32 where there is no open receiver, 35 where there is none.
#[unsafe(no_mangle)]
pub extern "C" fn ccsuite_receiver_frame(
    alloc: Global,
    receiver: &mut Handle,
    seen: &mut FrameSeen,
) -> u32
    ensures frame { (r : ReceivingOf) (frames : List Frame)
        → state_in receiver.old ≡ Some (held.Receiving r)
        → StandsBehind frames (reception_of r)
        → FrameAnswer (reception_of r) frames result seen.old seen.new }
    ensures closed { HasNoReceiver (state_in receiver.old)
        → (result ≡ closed_code) × (seen.new ≡ seen.old) }
    ensures kept { state_in receiver.new ≡ state_in receiver.old }
{
    match receiver.take(alloc) {
        None => CLOSED,
        Some(state) => {
            let code = frame(&state, seen);
            *receiver = Handle::of(state);
            code
        }
    }
}

fn frame(state: &State, seen: &mut FrameSeen) -> u32
    ensures frame { (r : ReceivingOf) (frames : List Frame) → state.now ≡ held.Receiving r
        → StandsBehind frames (reception_of r)
        → FrameAnswer (reception_of r) frames result seen.old seen.new }
    ensures closed { IsNoReceiver state.now → (result ≡ closed_code) × (seen.new ≡ seen.old) }
{
    match state.receiving() {
        Some(receiving) => tell_frame(receiving.reception(), seen),
        None => CLOSED,
    }
}

fn tell_frame(reception: &Reception, seen: &mut FrameSeen) -> u32
    ensures { (frames : List Frame) → StandsBehind frames reception.now
        → FrameAnswer reception.now frames result seen.old seen.new }
{
    let frames = reception.frames();
    if frames == 0 {
        return NONE;
    }
    *seen = FrameSeen {
        number: reception.number(),
        missing: reception.missing(),
        frames,
        reserved: [0; 3],
    };
    0
}

/// Tells the displayed cell of a channel, 1 to 4, at a row, 1 to 15, and a column, 0 to 31: 0. 32 where there is no open receiver, 1 where
/// there is no such place.
#[unsafe(no_mangle)]
pub extern "C" fn ccsuite_receiver_cell(
    alloc: Global,
    receiver: &mut Handle,
    channel: u32,
    row: u32,
    column: u32,
    seen: &mut TextCell,
) -> u32
    ensures cell { (r : ReceivingOf) (frames : List Frame)
        → state_in receiver.old ≡ Some (held.Receiving r)
        → StandsBehind frames (reception_of r)
        → CellAnswer (reception_of r) frames channel row column result seen.old seen.new }
    ensures closed { HasNoReceiver (state_in receiver.old)
        → (result ≡ closed_code) × (seen.new ≡ seen.old) }
    ensures kept { state_in receiver.new ≡ state_in receiver.old }
{
    match receiver.take(alloc) {
        None => CLOSED,
        Some(state) => {
            let code = cell(&state, channel, row, column, seen);
            *receiver = Handle::of(state);
            code
        }
    }
}

fn cell(state: &State, channel: u32, row: u32, column: u32, seen: &mut TextCell) -> u32
    ensures cell { (r : ReceivingOf) (frames : List Frame) → state.now ≡ held.Receiving r
        → StandsBehind frames (reception_of r)
        → CellAnswer (reception_of r) frames channel row column result seen.old seen.new }
    ensures closed { IsNoReceiver state.now → (result ≡ closed_code) × (seen.new ≡ seen.old) }
{
    match state.receiving() {
        Some(receiving) => tell_cell(receiving.reception(), channel, row, column, seen),
        None => CLOSED,
    }
}

fn tell_cell(reception: &Reception, channel: u32, row: u32, column: u32, seen: &mut TextCell) -> u32
    ensures { (frames : List Frame) → StandsBehind frames reception.now
        → CellAnswer reception.now frames channel row column result seen.old seen.new }
{
    let Some(chan) = chan_of(channel) else {
        return ARGUMENT;
    };
    if row < 1 || row > 15 || column > 31 {
        return ARGUMENT;
    }
    *seen = text_cell(reception.cell(chan, row as u8, column as u8));
    0
}

/// Tells all displayed cells of a channel, 1 to 4, row by row: 0. 32 where there is no open receiver, 1 where there is no such channel, 3
/// where there is room for fewer than 480 cells.
#[unsafe(no_mangle)]
pub extern "C" fn ccsuite_receiver_grid(
    alloc: Global,
    receiver: &mut Handle,
    channel: u32,
    cells: &mut [TextCell],
) -> u32
    ensures grid { (r : ReceivingOf) (frames : List Frame)
        → state_in receiver.old ≡ Some (held.Receiving r)
        → StandsBehind frames (reception_of r)
        → GridAnswer (reception_of r) frames channel result cells.old cells.new }
    ensures closed { HasNoReceiver (state_in receiver.old)
        → (result ≡ closed_code) × (cells.new ≡ cells.old) }
    ensures kept { state_in receiver.new ≡ state_in receiver.old }
{
    match receiver.take(alloc) {
        None => CLOSED,
        Some(state) => {
            let code = grid(&state, channel, cells);
            *receiver = Handle::of(state);
            code
        }
    }
}

fn grid(state: &State, channel: u32, cells: &mut [TextCell]) -> u32
    ensures grid { (r : ReceivingOf) (frames : List Frame) → state.now ≡ held.Receiving r
        → StandsBehind frames (reception_of r)
        → GridAnswer (reception_of r) frames channel result cells.old cells.new }
    ensures closed { IsNoReceiver state.now
        → (result ≡ closed_code) × (cells.new ≡ cells.old) }
{
    match state.receiving() {
        Some(receiving) => tell_channel(receiving.reception(), channel, cells),
        None => CLOSED,
    }
}

fn tell_channel(reception: &Reception, channel: u32, cells: &mut [TextCell]) -> u32
    ensures { (frames : List Frame) → StandsBehind frames reception.now
        → GridAnswer reception.now frames channel result cells.old cells.new }
{
    let Some(chan) = chan_of(channel) else {
        return ARGUMENT;
    };
    if cells.len() < GRID_CELLS {
        return ROOM;
    }
    tell_grid(reception.displayed(chan), cells);
    0
}

/// Tells the window of an id, 0 to 7, of a service, 1 to 63: 0. 32 where there is no open receiver, 1 where there is no such place, 35
/// where there is no window.
#[unsafe(no_mangle)]
pub extern "C" fn ccsuite_receiver_window(
    alloc: Global,
    receiver: &mut Handle,
    service: u32,
    id: u32,
    seen: &mut WindowSeen,
) -> u32
    ensures window { (r : ReceivingOf) (frames : List Frame)
        → state_in receiver.old ≡ Some (held.Receiving r)
        → StandsBehind frames (reception_of r)
        → HasWindowPlace service id
        → WindowAnswer ((service_behind
        (reception_of r) frames service).screen.windows id) result seen.old seen.new }
    ensures argument { (HasWindowPlace service id → ⊥) → (r : ReceivingOf)
        → state_in receiver.old ≡ Some (held.Receiving r)
        → (result ≡ argument_code) × (seen.new ≡ seen.old) }
    ensures closed { HasNoReceiver (state_in receiver.old)
        → (result ≡ closed_code) × (seen.new ≡ seen.old) }
    ensures kept { state_in receiver.new ≡ state_in receiver.old }
{
    match receiver.take(alloc) {
        None => CLOSED,
        Some(state) => {
            let code = window(&state, service, id, seen);
            *receiver = Handle::of(state);
            code
        }
    }
}

fn window(state: &State, service: u32, id: u32, seen: &mut WindowSeen) -> u32
    ensures window { (r : ReceivingOf) (frames : List Frame) → state.now ≡ held.Receiving r
        → StandsBehind frames (reception_of r)
        → HasWindowPlace service id
        → WindowAnswer ((service_behind
        (reception_of r) frames service).screen.windows id) result seen.old seen.new }
    ensures argument { (HasWindowPlace service id → ⊥) → (r : ReceivingOf)
        → state.now ≡ held.Receiving r
        → (result ≡ argument_code) × (seen.new ≡ seen.old) }
    ensures closed { IsNoReceiver state.now → (result ≡ closed_code) × (seen.new ≡ seen.old) }
{
    match state.receiving() {
        Some(receiving) => tell_window(receiving.reception(), service, id, seen),
        None => CLOSED,
    }
}

fn tell_window(reception: &Reception, service: u32, id: u32, seen: &mut WindowSeen) -> u32
    ensures window { (frames : List Frame) → StandsBehind frames reception.now
        → HasWindowPlace service id
        → WindowAnswer
        ((service_behind reception.now frames service).screen.windows id) result seen.old seen.new }
    ensures argument { (HasWindowPlace service id → ⊥)
        → (result ≡ argument_code) × (seen.new ≡ seen.old) }
{
    if service < 1 || service > 63 || id > 7 {
        return ARGUMENT;
    }
    match reception.window(service as u8, id as u8) {
        None => NONE,
        Some(window) => {
            *seen = window_seen(window);
            0
        }
    }
}

/// Tells the cell at a row, 0 to 15, and a column, 0 to 63, of the window of an id, 0 to 7, of a service, 1 to 63: 0. 32 where there is no
/// open receiver, 1 where there is no such place, 35 where there is no window.
#[unsafe(no_mangle)]
pub extern "C" fn ccsuite_receiver_window_cell(
    alloc: Global,
    receiver: &mut Handle,
    service: u32,
    id: u32,
    row: u32,
    column: u32,
    seen: &mut WindowCell,
) -> u32
    ensures cell { (r : ReceivingOf) (frames : List Frame)
        → state_in receiver.old ≡ Some (held.Receiving r)
        → StandsBehind frames (reception_of r)
        → HasCellPlace service id row column
        → WindowCellAnswer ((service_behind
        (reception_of r) frames service).screen.windows id) row column result seen.old seen.new }
    ensures argument { (HasCellPlace service id row column → ⊥) → (r : ReceivingOf)
        → state_in receiver.old ≡ Some (held.Receiving r)
        → (result ≡ argument_code) × (seen.new ≡ seen.old) }
    ensures closed { HasNoReceiver (state_in receiver.old)
        → (result ≡ closed_code) × (seen.new ≡ seen.old) }
    ensures kept { state_in receiver.new ≡ state_in receiver.old }
{
    match receiver.take(alloc) {
        None => CLOSED,
        Some(state) => {
            let code = window_cell_of(&state, service, id, row, column, seen);
            *receiver = Handle::of(state);
            code
        }
    }
}

fn window_cell_of(
    state: &State,
    service: u32,
    id: u32,
    row: u32,
    column: u32,
    seen: &mut WindowCell,
) -> u32
    ensures cell { (r : ReceivingOf) (frames : List Frame) → state.now ≡ held.Receiving r
        → StandsBehind frames (reception_of r)
        → HasCellPlace service id row column
        → WindowCellAnswer ((service_behind
        (reception_of r) frames service).screen.windows id) row column result seen.old seen.new }
    ensures argument { (HasCellPlace service id row column → ⊥) → (r : ReceivingOf)
        → state.now ≡ held.Receiving r
        → (result ≡ argument_code) × (seen.new ≡ seen.old) }
    ensures closed { IsNoReceiver state.now → (result ≡ closed_code) × (seen.new ≡ seen.old) }
{
    match state.receiving() {
        Some(receiving) => {
            tell_window_cell(receiving.reception(), service, id, row, column, seen)
        }
        None => CLOSED,
    }
}

fn tell_window_cell(
    reception: &Reception,
    service: u32,
    id: u32,
    row: u32,
    column: u32,
    seen: &mut WindowCell,
) -> u32
    ensures cell { (frames : List Frame) → StandsBehind frames reception.now
        → HasCellPlace service id row column
        → WindowCellAnswer
        ((service_behind reception.now frames service).screen.windows id) row column result seen.old seen.new }
    ensures argument { (HasCellPlace service id row column → ⊥)
        → (result ≡ argument_code) × (seen.new ≡ seen.old) }
{
    if service < 1 || service > 63 || id > 7 || row > 15 || column > 63 {
        return ARGUMENT;
    }
    match reception.window(service as u8, id as u8) {
        None => NONE,
        Some(window) => {
            *seen = window_cell(window.cell(row as u8, column as u8));
            0
        }
    }
}

/// Tells all cells of the window of an id, 0 to 7, of a service, 1 to 63, row by row: 0. 32 where there is no open receiver, 1 where there
/// is no such place, 35 where there is no window, 3 where there is room for fewer cells than its rows times its columns.
#[unsafe(no_mangle)]
pub extern "C" fn ccsuite_receiver_window_grid(
    alloc: Global,
    receiver: &mut Handle,
    service: u32,
    id: u32,
    cells: &mut [WindowCell],
) -> u32
    ensures grid { (r : ReceivingOf) (frames : List Frame)
        → state_in receiver.old ≡ Some (held.Receiving r)
        → StandsBehind frames (reception_of r)
        → HasWindowPlace service id
        → WindowGridAnswer ((service_behind
        (reception_of r) frames service).screen.windows id) result cells.old cells.new }
    ensures argument { (HasWindowPlace service id → ⊥) → (r : ReceivingOf)
        → state_in receiver.old ≡ Some (held.Receiving r)
        → (result ≡ argument_code) × (cells.new ≡ cells.old) }
    ensures closed { HasNoReceiver (state_in receiver.old)
        → (result ≡ closed_code) × (cells.new ≡ cells.old) }
    ensures kept { state_in receiver.new ≡ state_in receiver.old }
{
    match receiver.take(alloc) {
        None => CLOSED,
        Some(state) => {
            let code = window_grid(&state, service, id, cells);
            *receiver = Handle::of(state);
            code
        }
    }
}

fn window_grid(state: &State, service: u32, id: u32, cells: &mut [WindowCell]) -> u32
    ensures grid { (r : ReceivingOf) (frames : List Frame) → state.now ≡ held.Receiving r
        → StandsBehind frames (reception_of r)
        → HasWindowPlace service id
        → WindowGridAnswer ((service_behind
        (reception_of r) frames service).screen.windows id) result cells.old cells.new }
    ensures argument { (HasWindowPlace service id → ⊥) → (r : ReceivingOf)
        → state.now ≡ held.Receiving r
        → (result ≡ argument_code) × (cells.new ≡ cells.old) }
    ensures closed { IsNoReceiver state.now
        → (result ≡ closed_code) × (cells.new ≡ cells.old) }
{
    match state.receiving() {
        Some(receiving) => tell_all_of(receiving.reception(), service, id, cells),
        None => CLOSED,
    }
}

fn tell_all_of(reception: &Reception, service: u32, id: u32, cells: &mut [WindowCell]) -> u32
    ensures grid { (frames : List Frame) → StandsBehind frames reception.now
        → HasWindowPlace service id
        → WindowGridAnswer ((service_behind
        reception.now frames service).screen.windows id) result cells.old cells.new }
    ensures argument { (HasWindowPlace service id → ⊥)
        → (result ≡ argument_code) × (cells.new ≡ cells.old) }
{
    if service < 1 || service > 63 || id > 7 {
        return ARGUMENT;
    }
    match reception.window(service as u8, id as u8) {
        None => NONE,
        Some(window) => {
            if cells.len() < cell_count(window) {
                return ROOM;
            }
            tell_window_grid(window, cells);
            0
        }
    }
}

/// Tells which channels and services are shown otherwise after the last whole frame than at the last call of this or of
/// `ccsuite_receiver_changes`, or when the receiver was opened: 0. 32 where there is no open receiver, and then nothing is told.
#[unsafe(no_mangle)]
pub extern "C" fn ccsuite_receiver_changed(
    alloc: Global,
    receiver: &mut Handle,
    seen: &mut ChangedSeen,
) -> u32
    ensures changed { (r : ReceivingOf) (frames : List Frame)
        → state_in receiver.old ≡ Some (held.Receiving r)
        → StandsBehind frames (reception_of r)
        → ChangedAnswer r frames result seen.new (state_in receiver.new) }
    ensures closed { HasNoReceiver (state_in receiver.old)
        → (result ≡ closed_code) × (seen.new ≡ seen.old)
        × (state_in receiver.new ≡ state_in receiver.old) }
{
    match receiver.take(alloc) {
        None => CLOSED,
        Some(mut state) => {
            let code = changed(&mut state, seen);
            *receiver = Handle::of(state);
            code
        }
    }
}

fn changed(state: &mut State, seen: &mut ChangedSeen) -> u32
    requires { WasFed state.old }
    ensures changed { (r : ReceivingOf) (frames : List Frame) → state.old ≡ held.Receiving r
        → StandsBehind frames (reception_of r)
        → ChangedAnswer r frames result seen.new (Some state.new) }
    ensures closed { IsNoReceiver state.old
        → (result ≡ closed_code) × (seen.new ≡ seen.old) × (state.new ≡ state.old) }
    ensures on { WasFed state.new }
{
    match state {
        State::Receiving(receiving) => tell_changed(receiving, seen),
        _ => CLOSED,
    }
}

fn tell_changed(receiving: &mut Receiving, seen: &mut ChangedSeen) -> u32
    ensures changed { (frames : List Frame) → StandsBehind frames (reception_of receiving.old)
        → ChangedAnswer receiving.old frames result seen.new
        (Some (held.Receiving receiving.new)) }
    ensures reception { reception_of receiving.new ≡ reception_of receiving.old }
{
    let changed = receiving.changed();
    *seen = ChangedSeen {
        services: changed.services,
        channels: changed.channels,
        reserved: [0; 3],
    };
    0
}

/// Writes the text of what changed since the last call, or since the receiver was opened, to the front of `out`, as `decode` prints it, or
/// `conceal`: 0. Where nothing is written: 32 where there is no open receiver, 3 where there is too little room, and then these changes
/// aren't written again, 4 where memory isn't found.
#[unsafe(no_mangle)]
pub extern "C" fn ccsuite_receiver_changes(
    alloc: Global,
    receiver: &mut Handle,
    out: &mut [u8],
    written: &mut usize,
) -> u32
    ensures changes { (r : ReceivingOf) (frames : List Frame)
        → state_in receiver.old ≡ Some (held.Receiving r)
        → StandsBehind frames (reception_of r)
        → ChangesAnswer r frames out.old out.new result written.new (state_in receiver.new) }
    ensures closed { HasNoReceiver (state_in receiver.old)
        → (result ≡ closed_code)
        × StaysSo out.old out.new written.new (state_in receiver.old) (state_in receiver.new) }
{
    *written = 0;
    match receiver.take(alloc) {
        None => CLOSED,
        Some(mut state) => {
            let code = changes(alloc, &mut state, out, written);
            *receiver = Handle::of(state);
            code
        }
    }
}

fn changes(alloc: Global, state: &mut State, out: &mut [u8], written: &mut usize) -> u32
    requires none { written.old ≡ 0 }
    requires fed { WasFed state.old }
    ensures changes { (r : ReceivingOf) (frames : List Frame) → state.old ≡ held.Receiving r
        → StandsBehind frames (reception_of r)
        → ChangesAnswer r frames out.old out.new result written.new (Some state.new) }
    ensures closed { IsNoReceiver state.old
        → (result ≡ closed_code)
        × StaysSo out.old out.new written.new (Some state.old) (Some state.new) }
    ensures on { WasFed state.new }
{
    match state {
        State::Receiving(receiving) => write_changes(alloc, receiving, out, written),
        _ => CLOSED,
    }
}

fn write_changes(
    alloc: Global,
    receiving: &mut Receiving,
    out: &mut [u8],
    written: &mut usize,
) -> u32
    requires { written.old ≡ 0 }
    ensures changes { (frames : List Frame) → StandsBehind frames (reception_of receiving.old)
        → ChangesAnswer receiving.old frames out.old out.new result written.new
        (Some (held.Receiving receiving.new)) }
    ensures reception { reception_of receiving.new ≡ reception_of receiving.old }
{
    let Ok(front) = receiving.front_of_changes(alloc, out.len() + 1) else {
        return MEMORY;
    };
    hand_out(&front, out, written)
}

// Writes a text to the front of `out`, and the number of its bytes; nothing where there is too little room.
fn hand_out(text: &[u8], out: &mut [u8], written: &mut usize) -> u32
    requires { written.old ≡ 0 }
    ensures { HandsOut text.now out.old out.new result written.new }
{
    if text.len() > out.len() {
        return ROOM;
    }
    out[..text.len()].copy_from_slice(text);
    *written = text.len();
    0
}

/// Writes the text of all screens after the last whole frame to the front of `out`, as `show` prints it: 0. Where nothing is written: 32
/// where there is no open receiver, 3 where there is too little room, 4 where memory isn't found.
#[unsafe(no_mangle)]
pub extern "C" fn ccsuite_receiver_screens(
    alloc: Global,
    receiver: &mut Handle,
    out: &mut [u8],
    written: &mut usize,
) -> u32
    ensures screens { (r : ReceivingOf) (frames : List Frame)
        → state_in receiver.old ≡ Some (held.Receiving r)
        → StandsBehind frames (reception_of r)
        → ScreensAnswer (reception_of r) frames out.old out.new result written.new }
    ensures closed { HasNoReceiver (state_in receiver.old)
        → (result ≡ closed_code)
        × StaysSo out.old out.new written.new (state_in receiver.old) (state_in receiver.new) }
    ensures kept { state_in receiver.new ≡ state_in receiver.old }
{
    *written = 0;
    match receiver.take(alloc) {
        None => CLOSED,
        Some(state) => {
            let code = screens(alloc, &state, out, written);
            *receiver = Handle::of(state);
            code
        }
    }
}

fn screens(alloc: Global, state: &State, out: &mut [u8], written: &mut usize) -> u32
    requires { written.old ≡ 0 }
    ensures screens { (r : ReceivingOf) (frames : List Frame) → state.now ≡ held.Receiving r
        → StandsBehind frames (reception_of r)
        → ScreensAnswer (reception_of r) frames out.old out.new result written.new }
    ensures closed { IsNoReceiver state.now
        → (result ≡ closed_code) × (out.new ≡ out.old) × (written.new ≡ 0) }
{
    match state.receiving() {
        Some(receiving) => write_screens(alloc, receiving, out, written),
        None => CLOSED,
    }
}

fn write_screens(alloc: Global, receiving: &Receiving, out: &mut [u8], written: &mut usize) -> u32
    requires { written.old ≡ 0 }
    ensures { (frames : List Frame) → StandsBehind frames (reception_of receiving.now)
        → ScreensAnswer (reception_of receiving.now) frames out.old out.new result written.new }
{
    let Ok(front) = receiving.front_of_screens(alloc, out.len() + 1) else {
        return MEMORY;
    };
    hand_out(&front, out, written)
}

/// Closes a receiver, and frees what it holds; a closed one, and one of another kind, stays as it is.
#[unsafe(no_mangle)]
pub extern "C" fn ccsuite_receiver_close(alloc: Global, receiver: &mut Handle)
    ensures closed { (r : ReceivingOf) → state_in receiver.old ≡ Some (held.Receiving r)
        → state_in receiver.new ≡ None }
    ensures other { HasNoReceiver (state_in receiver.old)
        → state_in receiver.new ≡ state_in receiver.old }
{
    if let Some(state) = receiver.take(alloc) {
        if state.receiving().is_none() {
            *receiver = Handle::of(state);
        }
    }
}
