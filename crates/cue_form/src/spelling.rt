//! The records that spell a cue list, field by field.

ghost use Rattle.std.specs.Prelude.{◌≡◌, [], ◌∷◌, ◌++◌, decimal, encode_utf8_all, IfOk, OnOk, Some, if◌then◌else◌};
ghost use Rattle.std.specs.String.{string_bytes};
ghost use Rattle.line21_codes.specs.Channels.{channel_name};
ghost use Rattle.line21_codes.specs.PenWords.{colour_word, italic_mark, underline_mark};
ghost use Rattle.csv.specs.Records.{fields_of};
ghost use Rattle.cue_form.specs.Spelling.{attribute_record, colour_record, cue_record, fill_word, head_record, hide_word, pen_word, rate_word, rgb_word, run_record, share_record, version_word};
ghost use Rattle.cue_types.specs.declared.cue.Kind.TheVariants as kind;
ghost use Rattle.cue_types.specs.declared.head.Head.{Head};

use cc_base::Rate;
use csv::StringRecord;
use cue_types::{Cue, Head, Kind, Pen, Run, Share, Text, Version, WinCue};
use dtvcc_codes::{Fill, PenColors, Rgb, WinAttr};
use line21_codes::{Chan, italic_mark, underline_mark};
use std::alloc::{AllocError, Global};

/// The head: `ccsuite,VERSION,RATE,FRAMES`.
pub fn head_record(alloc: Global, head: Head) -> Result<StringRecord, AllocError>
    ensures { IfOk result (λ row. fields_of row ≡ head_record head) }
{
    let mut row = StringRecord::new(alloc);
    row.push_field("ccsuite")?;
    row.push_field(version_word(head.version))?;
    row.push_field(rate_word(head.rate))?;
    push_number(alloc, &mut row, head.frames)?;
    Ok(row)
}

/// A share: `share,SERVICE,BYTES`.
pub fn share_record(alloc: Global, share: Share) -> Result<StringRecord, AllocError>
    ensures { IfOk result (λ row. fields_of row ≡ share_record share) }
{
    let mut row = StringRecord::new(alloc);
    row.push_field("share")?;
    push_number(alloc, &mut row, u32::from(share.service))?;
    push_number(alloc, &mut row, u32::from(share.bytes))?;
    Ok(row)
}

/// A cue without its runs.
pub fn cue_record(alloc: Global, cue: &Cue) -> Result<StringRecord, AllocError>
    ensures { IfOk result (λ row. fields_of row ≡ cue_record cue.now.kind cue.now) }
{
    match cue.kind {
        Kind::Pop(channel) => shown_record(alloc, "pop", channel, cue),
        Kind::Paint(channel) => shown_record(alloc, "paint", channel, cue),
        Kind::Roll(channel, rows) => rolled_record(alloc, channel, rows, cue),
        Kind::Win(window) => window_record(alloc, window, cue),
    }
}

/// A run: `run,ROW,COL,PEN,TEXT`.
pub fn run_record(alloc: Global, run: &Run) -> Result<StringRecord, AllocError>
    ensures { IfOk result (λ row. fields_of row ≡ run_record run.now) }
{
    let mut row = StringRecord::new(alloc);
    row.push_field("run")?;
    push_number(alloc, &mut row, u32::from(run.row))?;
    push_number(alloc, &mut row, u32::from(run.col))?;
    let pen = pen_word(alloc, run.pen)?;
    row.push_field(pen.as_str())?;
    let text = text_word(alloc, &run.text)?;
    row.push_field(text.as_str())?;
    Ok(row)
}

/// A window's own attributes: `attr,JUSTIFY,PRINT,SCROLL,WRAP,EFFECT,DIR,SPEED,FILL,KIND,BORDER`.
pub fn attribute_record(alloc: Global, attributes: WinAttr) -> Result<StringRecord, AllocError>
    ensures { IfOk result (λ row. fields_of row ≡ attribute_record attributes) }
{
    let mut row = StringRecord::new(alloc);
    row.push_field("attr")?;
    push_number(alloc, &mut row, u32::from(attributes.justify))?;
    push_number(alloc, &mut row, u32::from(attributes.print))?;
    push_number(alloc, &mut row, u32::from(attributes.scroll))?;
    push_number(alloc, &mut row, wrap_number(attributes.wrap))?;
    push_number(alloc, &mut row, u32::from(attributes.effect))?;
    push_number(alloc, &mut row, u32::from(attributes.effect_dir))?;
    push_number(alloc, &mut row, u32::from(attributes.effect_speed))?;
    push_fill(alloc, &mut row, attributes.fill)?;
    push_number(alloc, &mut row, u32::from(attributes.border_kind))?;
    push_rgb(alloc, &mut row, attributes.border)?;
    Ok(row)
}

/// A run's own colours: `colour,FG,BG,EDGE`.
pub fn colour_record(alloc: Global, colors: PenColors) -> Result<StringRecord, AllocError>
    ensures { IfOk result (λ row. fields_of row ≡ colour_record colors) }
{
    let mut row = StringRecord::new(alloc);
    row.push_field("colour")?;
    push_fill(alloc, &mut row, colors.fg)?;
    push_fill(alloc, &mut row, colors.bg)?;
    push_rgb(alloc, &mut row, colors.edge)?;
    Ok(row)
}

/// 1 where words are wrapped.
fn wrap_number(wrap: bool) -> u32
    ensures { result ≡ if wrap then 1 else 0 }
{
    if wrap { 1 } else { 0 }
}

/// Adds a field of a colour and its opacity, by their digits.
fn push_fill(alloc: Global, row: &mut StringRecord, fill: Fill) -> Result<(), AllocError>
    ensures { OnOk result (fields_of row.new ≡ fields_of row.old ++ fill_word fill ∷ []) }
{
    let mut word = fill.opacity.to_string(alloc)?;
    push_digits(alloc, &mut word, fill.r, fill.g, fill.b)?;
    row.push_field(word.as_str())
}

/// Adds a field of a colour, by its digits.
fn push_rgb(alloc: Global, row: &mut StringRecord, rgb: Rgb) -> Result<(), AllocError>
    ensures { OnOk result (fields_of row.new ≡ fields_of row.old ++ rgb_word rgb ∷ []) }
{
    let mut word = String::new(alloc);
    push_digits(alloc, &mut word, rgb.r, rgb.g, rgb.b)?;
    row.push_field(word.as_str())
}

/// Adds the digits of red, green and blue.
fn push_digits(alloc: Global, word: &mut String, r: u8, g: u8, b: u8) -> Result<(), AllocError>
    ensures { OnOk result (string_bytes word.new
        ≡ string_bytes word.old ++ (decimal r ++ decimal g ++ decimal b)) }
{
    push_decimal(alloc, word, r)?;
    push_decimal(alloc, word, g)?;
    push_decimal(alloc, word, b)
}

/// Adds the digits of a number.
fn push_decimal(alloc: Global, word: &mut String, number: u8) -> Result<(), AllocError>
    ensures { OnOk result (string_bytes word.new ≡ string_bytes word.old ++ decimal number) }
{
    let digits = number.to_string(alloc)?;
    word.push_str(digits.as_str())
}

/// A pop-on or paint-on cue: `pop,CH,LOAD,SHOW,HIDE` or `paint,CH,LOAD,SHOW,HIDE`.
fn shown_record(
    alloc: Global,
    word: &str,
    channel: Chan,
    cue: &Cue,
) -> Result<StringRecord, AllocError>
    ensures { IfOk result (λ row. fields_of row
        ≡ word.now ∷ channel_name channel ∷ decimal cue.now.load ∷ decimal cue.now.show
        ∷ hide_word cue.now.hide ∷ []) }
{
    let mut row = StringRecord::new(alloc);
    row.push_field(word)?;
    row.push_field(channel.name())?;
    push_frames(alloc, &mut row, cue)?;
    Ok(row)
}

/// A roll-up cue: `roll,CH,N,LOAD,SHOW,HIDE`.
fn rolled_record(
    alloc: Global,
    channel: Chan,
    rows: u8,
    cue: &Cue,
) -> Result<StringRecord, AllocError>
    ensures { IfOk result (λ row. fields_of row ≡ cue_record (kind.Roll channel rows) cue.now) }
{
    let mut row = StringRecord::new(alloc);
    row.push_field("roll")?;
    row.push_field(channel.name())?;
    push_number(alloc, &mut row, u32::from(rows))?;
    push_frames(alloc, &mut row, cue)?;
    Ok(row)
}

/// A window cue: `win,SERVICE,ID,LOAD,SHOW,HIDE,DELAY,ANCHOR,AV,AH,ROWS,COLS,PRIORITY,WS,PS`.
fn window_record(alloc: Global, window: WinCue, cue: &Cue) -> Result<StringRecord, AllocError>
    ensures { IfOk result (λ row. fields_of row ≡ cue_record (kind.Win window) cue.now) }
{
    let mut row = StringRecord::new(alloc);
    row.push_field("win")?;
    push_number(alloc, &mut row, u32::from(window.service))?;
    push_number(alloc, &mut row, u32::from(window.id))?;
    push_frames(alloc, &mut row, cue)?;
    push_number(alloc, &mut row, u32::from(window.delay))?;
    push_number(alloc, &mut row, u32::from(window.anchor))?;
    push_number(alloc, &mut row, u32::from(window.av))?;
    push_number(alloc, &mut row, u32::from(window.ah))?;
    push_number(alloc, &mut row, u32::from(window.rows))?;
    push_number(alloc, &mut row, u32::from(window.cols))?;
    push_number(alloc, &mut row, u32::from(window.priority))?;
    push_number(alloc, &mut row, u32::from(window.ws))?;
    push_number(alloc, &mut row, u32::from(window.ps))?;
    Ok(row)
}

/// Adds the fields LOAD, SHOW and HIDE, which is empty where the cue has none.
fn push_frames(alloc: Global, row: &mut StringRecord, cue: &Cue) -> Result<(), AllocError>
    ensures { OnOk result (fields_of row.new
        ≡ fields_of row.old ++ (decimal cue.now.load ∷ decimal cue.now.show ∷ hide_word cue.now.hide
        ∷ [])) }
{
    push_number(alloc, row, cue.load)?;
    push_number(alloc, row, cue.show)?;
    match cue.hide {
        None => row.push_field(""),
        Some(hide) => push_number(alloc, row, hide),
    }
}

/// Adds a field of a number in decimal.
fn push_number(alloc: Global, row: &mut StringRecord, number: u32) -> Result<(), AllocError>
    ensures { OnOk result (fields_of row.new ≡ fields_of row.old ++ decimal number ∷ []) }
{
    let digits = number.to_string(alloc)?;
    row.push_field(digits.as_str())
}

/// The word of a pen.
fn pen_word(alloc: Global, pen: Pen) -> Result<String, AllocError>
    ensures { IfOk result (λ word. string_bytes word ≡ pen_word pen) }
{
    match pen {
        Pen::Line21(style) => marked(alloc, style.colour.word(), style.italic, style.underline),
        Pen::Dtv { italic, underline } => marked(alloc, "plain", italic, underline),
    }
}

/// A pen's word with its marks.
fn marked(alloc: Global, plain: &str, italic: bool, underline: bool) -> Result<String, AllocError>
    ensures { IfOk result (λ word. string_bytes word
        ≡ plain.now ++ italic_mark italic ++ underline_mark underline) }
{
    let mut word = String::new(alloc);
    word.push_str(plain)?;
    word.push_str(italic_mark(italic))?;
    word.push_str(underline_mark(underline))?;
    Ok(word)
}

/// A text in UTF-8.
fn text_word(alloc: Global, text: &Text) -> Result<String, AllocError>
    ensures { IfOk result (λ word. string_bytes word ≡ encode_utf8_all text.now) }
{
    text.as_slice().iter().copied().collect(alloc)
}

fn version_word(version: Version) -> &'static str
    ensures { result.now ≡ version_word version }
{
    match version {
        Version::One => "1",
        Version::Two => "2",
    }
}

fn rate_word(rate: Rate) -> &'static str
    ensures { result.now ≡ rate_word rate }
{
    match rate {
        Rate::F2997 => "29.97",
        Rate::F30 => "30",
        Rate::F5994 => "59.94",
        Rate::F60 => "60",
        _ => "",
    }
}
