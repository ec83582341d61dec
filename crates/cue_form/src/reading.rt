ghost use Rattle.std.specs.Prelude.{◌≤◌, IfErr, IfOk, length};
ghost use Rattle.cue_form.specs.Answers.{Answers};
ghost use Rattle.cue_form.specs.FirstFault.{FaultsFirst};
ghost use Rattle.cue_form.specs.Reading.{read_list};
ghost use Rattle.cc_base.specs.Streams.{whole_limit};
ghost use Rattle.cue_form.specs.Records.{records_of};
ghost use Rattle.cue_form.specs.Spelling.{SpellsList};

use crate::draft::Draft;
use crate::fault::{CueFault, in_record};
use csv::{ByteRecord, ReaderBuilder};
use cue_types::CueList;
use std::alloc::{AllocError, Global};

/// Reads a cue list of at most 67,108,864 bytes: CSV (RFC 4180) with records of differing length, no header row, and
/// fields as they stand; a byte order mark at the start is taken off.
///
/// Records are taken one by one, none is kept, and the first fault ends the reading. `Malformed` has the record's number among the
/// records that CSV finds (blank lines are none), the field's number, both from 1, and the reason. `Limit` is answered if the list
/// has more than 1,000,000 frames or 20,000 cues. Out of memory may come at any record, in place of what is due; so is any error of
/// the CSV reader answered, which over bytes in memory has no other.
pub fn parse(alloc: Global, bytes: &[u8]) -> Result<CueList, CueFault>
    requires { length bytes.now ≤ whole_limit }
    ensures answer { Answers (read_list bytes.now) result }

    // The records spell the list that they gave.
    ensures spelled { IfOk result (λ list. SpellsList (records_of bytes.now) list) }

    // Where memory lasts, the fault is the first one.
    ensures fault { IfErr result (λ fault. FaultsFirst (records_of bytes.now) fault) }
{
    let mut reader = ReaderBuilder::new()
        .has_headers(false)
        .flexible(true)
        .from_reader(alloc, bytes);
    let mut row = ByteRecord::new(alloc);
    let mut draft = Draft::new(alloc);
    let mut record_number = 1u32;
    'rows: loop {
        match reader.read_byte_record(&mut row) {
            Ok(true) => {}
            Ok(false) => return draft.finish(record_number),
            Err(_) => return Err(CueFault::Memory(AllocError)),
        }
        if let Err(offence) = draft.take(alloc, &row) {
            return Err(in_record(offence, record_number));
        }
        record_number += 1;
    }
}
