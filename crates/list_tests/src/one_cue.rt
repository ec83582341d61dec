//! Records that come byte by byte, and the cues of these.

use cc_base::{Rate, Why};
use csv::ByteRecord;
use cue_form::{CueFault, field, is_word};
use cue_lists::Cue;
use cue_lists::head::{Head, Version};
use cue_records::{CueReader, RecordReader, RecordRole};
use std::alloc::{AllocError, Global};
use std::test::Fail;

const HEAD: Head = Head {
    version: Version::One,
    rate: Rate::F2997,
    frames: 300,
};

/// The numbers of the bytes with which records end, if each byte comes by itself. The last record is left in `row`.
fn ends_of(alloc: Global, text: &[u8], row: &mut ByteRecord) -> Result<Vec<usize>, AllocError> {
    let mut reader = RecordReader::new(alloc)?;
    let mut ends = Vec::new(alloc);
    for (place, piece) in text.chunks(1).enumerate() {
        if reader.feed(alloc, piece, row)?.is_some() {
            ends.push(place)?;
        }
    }
    Ok(ends)
}

// A line feed in quotes ends nothing, a blank line is no record, and a quote within a field is text.
#[test]
fn a_record_ends_with_the_first_byte_of_its_line_break(rt: HostRuntime) -> Result<(), Fail> {
    let alloc = rt.alloc();
    let mut row = ByteRecord::new(alloc);
    let ends = ends_of(alloc, b"now,\"4\n2\"\r\n\nrun\"\n", &mut row)?;
    assert_eq!(rt; ends.as_slice(), [9, 16].as_slice());
    assert!(rt; row.len() == 1 && is_word(field(&row, 0), "run\""));
    Ok(())
}

// The last record needs no line break.
#[test]
fn the_end_of_the_bytes_ends_a_record(rt: HostRuntime) -> Result<(), Fail> {
    let alloc = rt.alloc();
    let mut row = ByteRecord::new(alloc);
    let mut reader = RecordReader::new(alloc)?;
    assert_eq!(rt; reader.feed(alloc, b"run,15", &mut row)?, None);
    assert!(rt; reader.finish(alloc, &mut row)? && is_word(field(&row, 1), "15"));
    let mut reader = RecordReader::new(alloc)?;
    assert_eq!(rt; reader.feed(alloc, b"run\n\n", &mut row)?, Some(4));
    assert!(rt; !reader.finish(alloc, &mut row)?);
    Ok(())
}

/// What the records of one cue give; None where others are among them, or memory ran out.
fn read_cue(alloc: Global, text: &[u8]) -> Option<Result<Cue, CueFault>> {
    let mut rows = RecordReader::new(alloc).ok()?;
    let mut row = ByteRecord::new(alloc);
    let mut cue: Option<CueReader> = None;
    let mut rec = 1u32;
    for piece in text.chunks(1) {
        if rows.feed(alloc, piece, &mut row).ok()?.is_some() {
            match RecordRole::of(&row) {
                RecordRole::Opens => cue = Some(CueReader::begin(alloc, HEAD, &row, rec)),
                RecordRole::Continues => match &mut cue {
                    Some(reader) => reader.take(alloc, &row, rec),
                    None => return None,
                },
                RecordRole::Other => return None,
            }
            rec = rec.saturating_add(1);
        }
    }
    match cue {
        Some(reader) => Some(reader.finish(rec)),
        None => None,
    }
}

/// Whether the records of a cue are refused at this record and field.
fn is_refused(alloc: Global, text: &[u8], rec: u32, field: u32, why: Why) -> bool {
    match read_cue(alloc, text) {
        Some(
            Err(
                CueFault::Malformed {
                    rec: at,
                    field: place,
                    why: reason,
                },
            ),
        ) => at == rec && place == field && reason == why,
        _ => false,
    }
}

#[test]
fn one_cue_is_read(rt: HostRuntime) {
    let alloc = rt.alloc();
    let read = read_cue(alloc, b"pop,CC1,0,20,60\nrun,15,0,white,HI\n");
    assert!(rt;
        matches!(&read, Some(Ok(cue))
            if cue.load == 0 && cue.show == 20 && cue.hide == Some(60)
                && cue.runs.as_slice().len() == 1)
    );
    // without a run, at the record after the last
    assert!(rt; is_refused(alloc, b"pop,CC1,0,20,60\n", 2, 1, Why::Field));
    // the first fault, whatever the further records have
    assert!(rt;
        is_refused(
            alloc,
            b"pop,CC2,0,20,60\nrun,16,0,white,HI\n",
            1,
            2,
            Why::Field
        )
    );
    // a character without a code
    assert!(rt;
        is_refused(
            alloc,
            b"pop,CC1,0,20,60\nrun,15,0,white,\xE4\xB8\xAD\n",
            2,
            5,
            Why::NoCode
        )
    );
}
