ghost use Rattle.std.specs.Prelude.{◌≡◌, ◌<◌, ◌≤◌, ◌^◌, length};
ghost use Rattle.csv.specs.Records.{fields_of};
ghost use Rattle.cue_form.specs.Answers.{Gives};
ghost use Rattle.cue_form.specs.Form.{first_row, frame_or_none_field, last_row, run_pen_field, suits_row};
ghost use Rattle.cue_types.specs.declared.cue.Kind.TheVariants as kind;
ghost use Rattle.cue_form.specs.Reading.{attributes_of, colours_of, cue_of, head_of, rolled_cue_of, run_of, shown_cue_of, window_cue_of};

use crate::fields::{
    read_channel, read_fill, read_frame, read_pen, read_rate, read_rgb, read_version,
    read_window_pen,
};
use crate::record_kind::RecordKind;
use crate::texts::{columns_of, read_text};
use crate::{Offence, count_place, field, out_of_form, read_number, read_within};
use cc_base::LimitOf;
use csv::ByteRecord;
use cue_types::{Cue, Head, Kind, MOST_FRAMES, Pen, Run, Runs, WinCue};
use dtvcc_codes::{PenColors, WinAttr};
use std::alloc::Global;

// The value of a field, which is refused where it has none.
macro_rules! value {
    ($read:expr, $field:literal) => {
        match $read {
            Some(value) => value,
            None => return Err(out_of_form($field)),
        }
    };
}

/// The head: `ccsuite,VERSION,RATE,FRAMES`.
pub fn read_head(row: &ByteRecord) -> Result<Head, Offence>
    ensures { result ≡ head_of (fields_of row.now) }
{
    if row.len() != 4 {
        return Err(out_of_form(count_place(4, row.len())));
    }
    let version = value!(read_version(field(row, 1)), 2);
    let rate = value!(read_rate(field(row, 2)), 3);
    let frames = value!(read_number(field(row, 3)), 4);
    if frames < 1 {
        return Err(out_of_form(4));
    }
    if frames > u64::from(MOST_FRAMES) {
        return Err(Offence::Limit(LimitOf::Frames));
    }
    Ok(Head {
        version,
        rate,
        frames: frames as u32,
    })
}

/// The cue of a record of its kind, which has no run yet.
pub fn read_cue(alloc: Global, kind: RecordKind, row: &ByteRecord) -> Result<Cue, Offence>
    ensures { result ≡ cue_of kind (fields_of row.now) }
{
    match kind {
        RecordKind::Pop => read_pop(alloc, row),
        RecordKind::Paint => read_paint(alloc, row),
        RecordKind::Roll => read_rolled(alloc, row),
        _ => read_window(alloc, row),
    }
}

/// A pop-on cue without its runs: `pop,CH,LOAD,SHOW,HIDE`.
fn read_pop(alloc: Global, row: &ByteRecord) -> Result<Cue, Offence>
    ensures { result ≡ shown_cue_of kind.Pop (fields_of row.now) }
{
    if row.len() != 5 {
        return Err(out_of_form(count_place(5, row.len())));
    }
    let channel = value!(read_channel(field(row, 1)), 2);
    let load = value!(read_frame(field(row, 2)), 3);
    let show = value!(read_frame(field(row, 3)), 4);
    let hide = value!(read_frame(field(row, 4)), 5);
    Ok(Cue {
        load,
        show,
        hide: Some(hide),
        kind: Kind::Pop(channel),
        runs: Runs::from_vec(Vec::new(alloc)),
    })
}

/// A paint-on cue without its runs: `paint,CH,LOAD,SHOW,HIDE`.
fn read_paint(alloc: Global, row: &ByteRecord) -> Result<Cue, Offence>
    ensures { result ≡ shown_cue_of kind.Paint (fields_of row.now) }
{
    if row.len() != 5 {
        return Err(out_of_form(count_place(5, row.len())));
    }
    let channel = value!(read_channel(field(row, 1)), 2);
    let load = value!(read_frame(field(row, 2)), 3);
    let show = value!(read_frame(field(row, 3)), 4);
    let hide = value!(read_frame(field(row, 4)), 5);
    Ok(Cue {
        load,
        show,
        hide: Some(hide),
        kind: Kind::Paint(channel),
        runs: Runs::from_vec(Vec::new(alloc)),
    })
}

/// A roll-up cue without its runs: `roll,CH,N,LOAD,SHOW,HIDE`.
fn read_rolled(alloc: Global, row: &ByteRecord) -> Result<Cue, Offence>
    ensures { result ≡ rolled_cue_of (fields_of row.now) }
{
    if row.len() != 6 {
        return Err(out_of_form(count_place(6, row.len())));
    }
    let channel = value!(read_channel(field(row, 1)), 2);
    let rows = value!(read_within(2, 4, field(row, 2)), 3);
    let load = value!(read_frame(field(row, 3)), 4);
    let show = value!(read_frame(field(row, 4)), 5);
    let hide = value!(read_frame_or_none(field(row, 5)), 6);
    Ok(Cue {
        load,
        show,
        hide,
        kind: Kind::Roll(channel, rows as u8),
        runs: Runs::from_vec(Vec::new(alloc)),
    })
}

/// The frame of a HIDE that may be empty.
fn read_frame_or_none(text: &[u8]) -> Option<Option<u32>>
    ensures { result ≡ frame_or_none_field text.now }
{
    if text.is_empty() {
        return Some(None);
    }
    match read_frame(text) {
        Some(frame) => Some(Some(frame)),
        None => None,
    }
}

/// A window cue without its runs: `win,SERVICE,ID,LOAD,SHOW,HIDE,DELAY,ANCHOR,AV,AH,ROWS,COLS,PRIORITY,WS,PS`.
fn read_window(alloc: Global, row: &ByteRecord) -> Result<Cue, Offence>
    ensures { result ≡ window_cue_of (fields_of row.now) }
{
    if row.len() != 15 {
        return Err(out_of_form(count_place(15, row.len())));
    }
    let service = value!(read_within(1, 6, field(row, 1)), 2);
    let id = value!(read_within(0, 7, field(row, 2)), 3);
    let load = value!(read_frame(field(row, 3)), 4);
    let show = value!(read_frame(field(row, 4)), 5);
    let hide = value!(read_frame(field(row, 5)), 6);
    let window = WinCue {
        service: service as u8,
        id: id as u8,
        delay: value!(read_within(0, 255, field(row, 6)), 7) as u8,
        anchor: value!(read_within(0, 8, field(row, 7)), 8) as u8,
        av: value!(read_within(0, 74, field(row, 8)), 9) as u8,
        ah: value!(read_within(0, 209, field(row, 9)), 10) as u8,
        rows: value!(read_within(1, 12, field(row, 10)), 11) as u8,
        cols: value!(read_within(1, 42, field(row, 11)), 12) as u8,
        priority: value!(read_within(0, 7, field(row, 12)), 13) as u8,
        ws: value!(read_within(1, 7, field(row, 13)), 14) as u8,
        ps: value!(read_within(1, 7, field(row, 14)), 15) as u8,
        attr: None,
    };
    Ok(Cue {
        load,
        show,
        hide: Some(hide),
        kind: Kind::Win(window),
        runs: Runs::from_vec(Vec::new(alloc)),
    })
}

/// A window's own attributes: `attr,JUSTIFY,PRINT,SCROLL,WRAP,EFFECT,DIR,SPEED,FILL,KIND,BORDER`.
pub fn read_attributes(row: &ByteRecord) -> Result<WinAttr, Offence>
    ensures { result ≡ attributes_of (fields_of row.now) }
{
    if row.len() != 11 {
        return Err(out_of_form(count_place(11, row.len())));
    }
    Ok(WinAttr {
        justify: value!(read_within(0, 3, field(row, 1)), 2) as u8,
        print: value!(read_within(0, 3, field(row, 2)), 3) as u8,
        scroll: value!(read_within(0, 3, field(row, 3)), 4) as u8,
        wrap: value!(read_within(0, 1, field(row, 4)), 5) == 1,
        effect: value!(read_within(0, 2, field(row, 5)), 6) as u8,
        effect_dir: value!(read_within(0, 3, field(row, 6)), 7) as u8,
        effect_speed: value!(read_within(0, 15, field(row, 7)), 8) as u8,
        fill: value!(read_fill(field(row, 8)), 9),
        border_kind: value!(read_within(0, 5, field(row, 9)), 10) as u8,
        border: value!(read_rgb(field(row, 10)), 11),
    })
}

/// A run's own colours: `colour,FG,BG,EDGE`.
pub fn read_colours(row: &ByteRecord) -> Result<PenColors, Offence>
    ensures { result ≡ colours_of (fields_of row.now) }
{
    if row.len() != 4 {
        return Err(out_of_form(count_place(4, row.len())));
    }
    Ok(PenColors {
        fg: value!(read_fill(field(row, 1)), 2),
        bg: value!(read_fill(field(row, 2)), 3),
        edge: value!(read_rgb(field(row, 3)), 4),
    })
}

/// A run of a cue: `run,ROW,COL,PEN,TEXT`. Memory is taken for its text alone.
pub fn read_run(alloc: Global, cue: &Cue, row: &ByteRecord) -> Result<Run, Offence>
    ensures { Gives (run_of cue.now.kind cue.now.runs (fields_of row.now)) result }
{
    if row.len() != 5 {
        return Err(out_of_form(count_place(5, row.len())));
    }
    let rows = (first_row(cue.kind), last_row(cue.kind));
    let on_row = value!(read_within(rows.0, rows.1, field(row, 1)), 2) as u8;
    if !suits_row(cue.kind, cue.runs.as_slice(), on_row) {
        return Err(out_of_form(2));
    }
    let last = u64::from(columns_of(cue.kind).saturating_sub(1));
    let col = value!(read_within(0, last, field(row, 2)), 3) as u8;
    let pen = value!(read_run_pen(cue.kind, field(row, 3)), 4);
    let text = read_text(alloc, cue.kind, col, field(row, 4))?;
    Ok(Run {
        row: on_row,
        col,
        pen,
        text,
        colors: None,
    })
}

/// The first row of a cue's runs.
fn first_row(kind: Kind) -> u64
    ensures { result ≡ first_row kind }
{
    match kind {
        Kind::Win(_) => 0,
        Kind::Pop(_) | Kind::Paint(_) | Kind::Roll(_, _) => 1,
    }
}

/// The last row of a cue's runs.
fn last_row(kind: Kind) -> u64
    ensures row { result ≡ last_row kind }
    ensures small { result < 256 }
{
    match kind {
        Kind::Win(window) => u64::from(window.rows.saturating_sub(1)),
        Kind::Pop(_) | Kind::Paint(_) | Kind::Roll(_, _) => 15,
    }
}

/// Whether a run of this row suits a cue with these runs: a roll-up cue's stand on one row, which has room for its rows.
fn suits_row(kind: Kind, runs: &[Run], row: u8) -> bool
    ensures { result ≡ suits_row kind runs.now row }
{
    match kind {
        Kind::Roll(_, rows) => match runs {
            [] => rows <= row,
            [first, ..] => rows <= row && row == first.row,
        },
        Kind::Pop(_) | Kind::Paint(_) | Kind::Win(_) => true,
    }
}

/// The pen of a run in a cue of its kind.
fn read_run_pen(kind: Kind, text: &[u8]) -> Option<Pen>
    ensures { result ≡ run_pen_field kind text.now }
{
    match kind {
        Kind::Win(_) => read_window_pen(text),
        Kind::Pop(_) | Kind::Paint(_) | Kind::Roll(_, _) => match read_pen(text) {
            Some(style) => Some(Pen::Line21(style)),
            None => None,
        },
    }
}
