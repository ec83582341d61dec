ghost use Rattle.std.specs.Prelude.{◌≡◌, ◌≤◌, IfSome};
ghost use Rattle.std.specs.List.{list_all};
ghost use Rattle.csv.specs.Records.{fields_of};
ghost use Rattle.xds_lists.specs.Form.{AreText, is_text_byte, text_field};
ghost use Rattle.xds_lists.specs.Reading.{listed_of};
ghost use Rattle.xds_lists.specs.Seen.{listed_result};

use crate::listed::XdsListed;
use csv::ByteRecord;
use cue_form::{count_place, field, is_word, read_within};
use xds_packets::{XdsPacket, XdsText};

// The value of a field, which offends where it has none.
macro_rules! value {
    ($read:expr, $field:literal) => {
        match $read {
            Some(value) => value,
            None => return Err($field),
        }
    };
}

/// The packet of a record `xds,FRAME,CLASS,TYPE,TEXT`, or the number of the field that offends, from 1.
pub fn read_listed(row: &ByteRecord) -> Result<XdsListed, u32>
    ensures { listed_result result ≡ listed_of (fields_of row.now) }
{
    if !is_word(field(row, 0), "xds") {
        return Err(1);
    }
    if row.len() != 5 {
        return Err(count_place(5, row.len()));
    }
    let from = value!(read_within(0, 999_999, field(row, 1)), 2) as u32;
    let class = value!(read_within(1, 7, field(row, 2)), 3) as u8;
    let kind = value!(read_within(1, 127, field(row, 3)), 4) as u8;
    let text = value!(read_text(field(row, 4)), 5);
    Ok(XdsListed {
        from,
        packet: XdsPacket { class, kind, text },
    })
}

/// The text of a packet: 1 to 32 bytes of 20 to 7E.
fn read_text(bytes: &[u8]) -> Option<XdsText>
    ensures value { result ≡ text_field bytes.now }
    ensures text { IfSome result (λ text. AreText text) }
{
    if bytes.is_empty() || bytes.len() > 32 || !are_text_bytes(bytes) {
        None
    } else {
        Some(XdsText::of(bytes))
    }
}

fn are_text_bytes(bytes: &[u8]) -> bool
    ensures { result ≡ list_all is_text_byte bytes.now }
{
    for byte in bytes {
        if !(0x20..=0x7E).contains(byte) {
            return false;
        }
    }
    true
}
