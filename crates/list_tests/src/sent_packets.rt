//! Packets that are sent in the free slots of a field, pair by pair, where no cue list leaves just these slots free, and where a
//! packet isn't ended.

use std::alloc::Global;
use std::process::Abort;
use std::test::Fail;
use xds_lists::{XdsWriter, parse_xds};

// A list, in slots of the frames from 0 on, an o for each that is free and an x for each that isn't. Then the pairs that are sent, each
// in hexadecimal digits, a dash for none; and the first packet that isn't ended after them.
type Case = (&'static str, &'static str, &'static str, Option<u32>);

fn sends(rt: &impl Abort, alloc: Global, case: Case) -> Result<(), Fail> {
    let (list, slots, pairs, unfinished) = case;
    assert!(rt; list.len() <= 1000);
    let mut writer = XdsWriter::new(parse_xds(alloc, list.as_bytes())?);
    let mut sent = String::new(alloc);
    let mut frame = 0u32;
    for slot in slots.bytes() {
        let word = match writer.step(frame, slot == b'o') {
            Some(pair) => format!(in alloc; "{:02x}{:02x} ", pair.a, pair.b)?,
            None => format!(in alloc; "- ")?,
        };
        sent.push_str(&word)?;
        frame = frame.saturating_add(1);
    }
    assert!(rt; sent.as_str().trim_end() == pairs && writer.unfinished() == unfinished);
    Ok(())
}

const NEWS: &str = "xds,0,1,3,NEWS";

const TWO: &str = "xds,0,1,1,A\nxds,0,7,127,AB";

const CASES: &[Case] = &[
    // After a slot that isn't free the continue pair comes first, also after a continue pair.
    (NEWS, "ooxxoooo", "0183 ce45 - - 0283 57d3 8fb0 -", None),
    (NEWS, "ooxoxooo", "0183 ce45 - 0283 - 0283 57d3 8fb0", None),
    (NEWS, "oxooxooo", "0183 - 0283 ce45 - 0283 57d3 8fb0", None),
    (NEWS, "oxxoooo", "0183 - - 0283 ce45 57d3 8fb0", None),
    (NEWS, "oooxooo", "0183 ce45 57d3 - 0283 8fb0 -", None),
    (NEWS, "oooxoxoo", "0183 ce45 57d3 - 0283 - 0283 8fb0", None),
    ("xds,0,7,127,AB", "oxooo", "0d7f - 0e7f c1c2 8f62", None),
    ("xds,0,2,4, ", "ooxoo", "8304 2080 - 0404 8f4a", None),
    (
        "xds,0,5,6,xyz",
        "ooxooo",
        "8986 f879 - 8a86 7a80 8ff7",
        None,
    ),
    (
        "xds,0,3,2,~",
        "oxoxoxooo",
        "8502 - 8602 - 8602 - 8602 fe80 8fec",
        None,
    ),
    // A start pair needs no continue pair before it.
    ("xds,0,1,1,A", "xooo", "- 0101 c180 8fae", None),
    ("xds,1,1,1,A", "oxxoooo", "- - - 0101 c180 8fae -", None),
    // A packet follows the one before it, which waits for a free slot.
    (
        "xds,0,1,1,A\nxds,0,1,1,A",
        "ooxooooo",
        "0101 c180 - 0201 8fae 0101 c180 8fae",
        None,
    ),
    (TWO, "oooxooo", "0101 c180 8fae - 0d7f c1c2 8f62", None),
    // Slots that are too few.
    ("xds,0,1,1,A", "xxx", "- - -", Some(1)),
    ("xds,3,1,1,A", "ooo", "- - -", Some(1)),
    ("xds,0,1,1,A", "oo", "0101 c180", Some(1)),
    (TWO, "ooooo", "0101 c180 8fae 0d7f c1c2", Some(2)),
    (TWO, "oooo", "0101 c180 8fae 0d7f", Some(2)),
    (TWO, "ooo", "0101 c180 8fae", Some(2)),
    (TWO, "oo", "0101 c180", Some(1)),
    (TWO, "", "", Some(1)),
];

#[test]
fn packets_stand_in_free_slots(rt: HostRuntime) -> Result<(), Fail> {
    for &case in CASES {
        sends(&rt, rt.alloc(), case)?;
    }
    Ok(())
}
