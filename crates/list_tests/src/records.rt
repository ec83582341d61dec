use csv::{ByteRecord, ReaderBuilder};
use cue_form::{field, is_word};

// The first record has three fields, the second of them empty; the second record has one, in quotes.
#[test]
fn fields_of_records_are_taken_by_their_places(rt: HostRuntime) {
    let alloc = rt.alloc();
    let mut reader = ReaderBuilder::new()
        .has_headers(false)
        .flexible(true)
        .from_reader(alloc, b"xds,,7\n\"a,b\"\n".as_slice());
    let mut row = ByteRecord::new(alloc);
    for fields in [["xds", "", "7", ""], ["a,b", "", "", ""]] {
        assert!(rt; matches!(reader.read_byte_record(&mut row), Ok(true)));
        for place in 0..4 {
            assert!(rt;
                is_word(field(&row, place), fields[place]) && !is_word(field(&row, place), "xd")
            );
        }
    }
    assert!(rt; matches!(reader.read_byte_record(&mut row), Ok(false)));
}
