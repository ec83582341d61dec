use dual_fields::{Part, SlotUse, place_all, table, table_beside};
use lanes::FieldChunk;
use line21_author::{Event, Unit};
use line21_codes::Pair;
use std::test::Fail;

const RCL: Pair = Pair { a: 0x1C, b: 0x20 };

const OK: Pair = Pair { a: 0x4F, b: 0xCB };

const EDM: Pair = Pair { a: 0x94, b: 0x2C };

// A unit of a cue that begins with RCL, from slot 0 on and before slot 7: the first one or a later one.
macro_rules! part {
    ($pair:expr, $doubled:expr, $later:expr) => {
        Part {
            chunk: FieldChunk {
                unit: Unit {
                    pair: $pair,
                    doubled: $doubled,
                },
                load: 0,
                until: 7,
                cue: 1,
            },
            first: Unit {
                pair: RCL,
                doubled: true,
            },
            later: $later,
        }
    };
}

macro_rules! event {
    ($slot:expr) => {
        Event {
            slot: $slot,
            pair: EDM,
        }
    };
}

// The first list's cue has its units in 0 to 6, and its events in 7 and 20; the second's events are in 26 and 28.
#[test]
fn tables_are_those_of_both_lists(rt: HostRuntime) -> Result<(), Fail> {
    let alloc = rt.alloc();
    let first_events = vec![in alloc; event!(7), event!(20)]?;
    let second_events = vec![in alloc; event!(26), event!(28)]?;
    let parts = vec![in alloc;
        part!(RCL, true, false),
        part!(RCL, true, true),
        part!(RCL, true, true),
        part!(OK, false, true),
    ]?;
    let uses = table(alloc, 30, &first_events, &second_events)?;
    let places = place_all(alloc, &uses, &parts).ok().ok_or("there is room")?;
    let beside = table_beside(alloc, 30, &first_events, &second_events, &parts, &places)?;
    for slot in 0..30u32 {
        let due = match slot {
            0..=8 | 20 | 21 => SlotUse::Foreign,
            26.. => SlotUse::Own,
            _ => SlotUse::Free,
        };
        assert!(rt; beside.get(slot as usize) == Some(&due));
    }
    Ok(())
}
