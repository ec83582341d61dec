ghost use Rattle.std.specs.Prelude.{◌≤◌, IfErr, IfOk, length};
ghost use Rattle.cc_base.specs.Streams.{whole_limit};
ghost use Rattle.cue_form.specs.Records.{records_of};
ghost use Rattle.xds_lists.specs.FirstFault.{FaultsFirst};
ghost use Rattle.xds_lists.specs.Form.{SpellPackets};
ghost use Rattle.xds_lists.specs.Reading.{Answers, read_packets};

use crate::fault::XdsFault;
use crate::list::XdsList;
use crate::record::read_listed;
use cc_base::Why;
use csv::{ByteRecord, ReaderBuilder};
use std::alloc::{AllocError, Global};

/// Reads a list of packets of at most 67,108,864 bytes: CSV (RFC 4180) without a header row, and fields as they stand; a byte
/// order mark at the start is taken off. Each record is `xds,FRAME,CLASS,TYPE,TEXT`: FRAME 0 to 999,999, CLASS 1 to 7, TYPE 1
/// to 127, and TEXT 1 to 32 bytes, each 20 to 7E. No record is a list of no packets.
///
/// Records are taken one by one, none is kept, and the first fault ends the reading: `Malformed` has the record's number among
/// the records that CSV finds (blank lines are none) and the field's number, both from 1, and the reason is Field. Want of
/// memory may come at any record, in place of what is due; so is any error of the CSV reader answered, which over bytes in
/// memory has no other.
pub fn parse_xds(alloc: Global, bytes: &[u8]) -> Result<XdsList, XdsFault>
    requires { length bytes.now ≤ whole_limit }
    ensures answer { Answers (read_packets (records_of bytes.now)) result }

    // The records spell the list that they gave.
    ensures spelled { IfOk result (λ list. SpellPackets (records_of bytes.now) list) }

    // Where memory lasts, the fault is the first one.
    ensures fault { IfErr result (λ fault. FaultsFirst (records_of bytes.now) fault) }
{
    let mut reader = ReaderBuilder::new()
        .has_headers(false)
        .flexible(true)
        .from_reader(alloc, bytes);
    let mut row = ByteRecord::new(alloc);
    let mut list = XdsList::new(alloc);
    let mut record_number = 1u32;
    'rows: loop {
        match reader.read_byte_record(&mut row) {
            Ok(true) => {}
            Ok(false) => return Ok(list),
            Err(_) => return Err(XdsFault::Memory(AllocError)),
        }
        let listed = match read_listed(&row) {
            Ok(listed) => listed,
            Err(field) => {
                return Err(XdsFault::Malformed {
                    rec: record_number,
                    field,
                    why: Why::Field,
                });
            }
        };
        if let Err(error) = list.push(&listed) {
            return Err(XdsFault::Memory(error));
        }
        record_number += 1;
    }
}
