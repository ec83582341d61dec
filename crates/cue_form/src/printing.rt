ghost use Rattle.std.specs.Prelude.{◌≡◌, [], ◌∷◌, IfOk, OnOk, map, option_to_list};
ghost use Rattle.std.specs.List.{flat_map};
ghost use Rattle.std.specs.Vec.{vec_items};
ghost use Rattle.csv.specs.Records.{fields_of};
ghost use Rattle.cue_form.specs.Printing.{IsBetweenRecords, Wrote, in_order, list_bytes};
ghost use Rattle.cue_form.specs.Records.{records_of};
ghost use Rattle.cue_form.specs.Spelling.{attribute_record, attribute_records, cue_records, list_records, run_records, share_record};

use crate::spelling::{
    attribute_record, colour_record, cue_record, head_record, run_record, share_record,
};
use csv::{StringRecord, Writer, WriterBuilder};
use cue_types::{Cue, CueList, Head, Kind, Run, Share, Version};
use dtvcc_codes::WinAttr;
use std::alloc::{AllocError, Global};

/// Writes a cue list as CSV (RFC 4180): a record a line, each with a line feed after it. A field stands in quotes where
/// it has a comma, a quote or the end of a line. The first record says version 2, and the shares stand in ascending order
/// of their services. A window's own attributes stand directly after its record, and a run's own colours directly after
/// its.
pub fn print(alloc: Global, list: &CueList) -> Result<Vec<u8>, AllocError>
    ensures bytes { IfOk result (λ bytes. bytes.items ≡ list_bytes list.now) }

    // The bytes are read back as the records that spell the list.
    ensures records { IfOk result
        (λ bytes. records_of bytes.items ≡ list_records Version.Two (in_order list.now)) }
{
    let mut writer = WriterBuilder::new()
        .flexible(true)
        .from_writer(Vec::new(alloc));
    let head = Head {
        version: Version::Two,
        rate: list.rate(),
        frames: list.frames(),
    };
    write(&mut writer, &head_record(alloc, head)?)?;
    write_shares(alloc, &mut writer, list)?;
    write_cues(alloc, &mut writer, list.cues())?;
    match writer.into_inner() {
        Ok(bytes) => Ok(bytes),
        Err(_) => Err(AllocError),
    }
}

/// Writes a record.
fn write(writer: &mut Writer<Vec<u8>>, row: &StringRecord) -> Result<(), AllocError>
    requires { IsBetweenRecords writer.old }
    ensures { OnOk result (Wrote vec_items writer.old writer.new (fields_of row.now ∷ [])) }
{
    match writer.write_byte_record(row.as_byte_record()) {
        Ok(()) => Ok(()),
        Err(_) => Err(AllocError),
    }
}

/// Writes the shares in ascending order of their services.
fn write_shares(
    alloc: Global,
    writer: &mut Writer<Vec<u8>>,
    list: &CueList,
) -> Result<(), AllocError>
    requires { IsBetweenRecords writer.old }
    ensures { OnOk result (Wrote vec_items writer.old writer.new
        (map share_record (in_order list.now).shares)) }
{
    for service in [1, 2, 3, 4, 5, 6].as_slice() {
        if let Some(bytes) = list.share(*service) {
            let share = Share {
                service: *service,
                bytes,
            };
            write(writer, &share_record(alloc, share)?)?;
        }
    }
    Ok(())
}

/// Writes cues, each with its window's attributes and its runs after it.
fn write_cues(alloc: Global, writer: &mut Writer<Vec<u8>>, cues: &[Cue]) -> Result<(), AllocError>
    requires { IsBetweenRecords writer.old }
    ensures { OnOk result (Wrote vec_items writer.old writer.new (flat_map cue_records cues.now)) }
{
    for cue in cues {
        write(writer, &cue_record(alloc, cue)?)?;
        write_attributes(alloc, writer, cue.kind)?;
        write_runs(alloc, writer, cue.runs.as_slice())?;
    }
    Ok(())
}

/// Writes the attributes of a window's own, where it has them.
fn write_attributes(
    alloc: Global,
    writer: &mut Writer<Vec<u8>>,
    kind: Kind,
) -> Result<(), AllocError>
    requires { IsBetweenRecords writer.old }
    ensures { OnOk result (Wrote vec_items writer.old writer.new (attribute_records kind)) }
{
    if let Some(attributes) = own_attributes(kind) {
        write(writer, &attribute_record(alloc, attributes)?)?;
    }
    Ok(())
}

/// The attributes of a window's own.
fn own_attributes(kind: Kind) -> Option<WinAttr>
    ensures { attribute_records kind ≡ map attribute_record (option_to_list result) }
{
    match kind {
        Kind::Win(window) => window.attr,
        Kind::Pop(_) | Kind::Paint(_) | Kind::Roll(_, _) => None,
    }
}

/// Writes runs, each with the colours of its own after it, where it has them.
fn write_runs(alloc: Global, writer: &mut Writer<Vec<u8>>, runs: &[Run]) -> Result<(), AllocError>
    requires { IsBetweenRecords writer.old }
    ensures { OnOk result (Wrote vec_items writer.old writer.new (flat_map run_records runs.now)) }
{
    for run in runs {
        write(writer, &run_record(alloc, run)?)?;
        if let Some(colors) = run.colors {
            write(writer, &colour_record(alloc, colors)?)?;
        }
    }
    Ok(())
}
