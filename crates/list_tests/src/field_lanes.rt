//! Lanes of a field that no list has: with an event in slot 0, and beyond the frames of a list.

ghost use Rattle.std.specs.Prelude.{◌≡◌, ◌+◌, ◌^◌, ◌<◌, length};

use lanes::{FieldChunk, FieldLane, PlacedField, PlanFault};
use line21_author::{Event, Unit};
use line21_codes::Pair;
use std::process::Abort;
use std::test::Fail;

const NULL: Pair = Pair { a: 0x80, b: 0x80 };

const RCL: Pair = Pair { a: 0x94, b: 0x20 };

const EOC: Pair = Pair { a: 0x94, b: 0x2F };

const EDM: Pair = Pair { a: 0x94, b: 0x2C };

const HI: Pair = Pair { a: 0xC8, b: 0x49 };

// A pair of the cue $cue, sent twice or once, from its LOAD on and before its SHOW.
macro_rules! chunk {
    ($pair:expr, $doubled:expr, $cue:expr, $load:expr, $until:expr) => {
        FieldChunk {
            unit: Unit {
                pair: $pair,
                doubled: $doubled,
            },
            load: $load,
            until: $until,
            cue: $cue,
        }
    };
}

macro_rules! event {
    ($pair:expr, $slot:expr) => {
        Event {
            slot: $slot,
            pair: $pair,
        }
    };
}

// The next pairs of the plan are these.
fn gives(rt: &impl Abort, lane: &mut PlacedField, pairs: &[Pair])
    requires { lane.old.slot + length pairs.now < 2 ^ 32 }
    ensures { lane.new.slot ≡ lane.old.slot + length pairs.now }
{
    for pair in pairs {
        assert!(rt; lane.next() == *pair);
    }
}

#[test]
fn a_unit_waits_for_its_load(rt: HostRuntime) -> Result<(), Fail> {
    let chunks = vec![in rt.alloc();
        chunk!(HI, false, 1, 2, 4_294_967_295),
        chunk!(RCL, true, 2, 5, 4_294_967_295),
    ]?;
    let events = vec![in rt.alloc(); event!(EDM, 0)]?;
    let lane = FieldLane { chunks, events };
    let mut placed = lane.place(rt.alloc()).ok().ok_or("both cues have room")?;
    gives(
        &rt,
        &mut placed,
        &[EDM, EDM, HI, NULL, NULL, RCL, RCL, NULL],
    );
    Ok(())
}

#[test]
fn a_lane_far_ahead_is_judged_at_once(rt: HostRuntime) -> Result<(), Fail> {
    let chunks = vec![in rt.alloc();
        chunk!(RCL, true, 7, 4_294_967_290, 4_294_967_295),
        chunk!(HI, false, 7, 4_294_967_290, 4_294_967_295),
    ]?;
    let events = vec![in rt.alloc(); event!(EDM, 4_294_967_291), event!(EOC, 4_294_967_295)]?;
    let lane = FieldLane { chunks, events };
    assert!(rt; matches!(lane.place(rt.alloc()), Err(PlanFault::NoRoom(7))));
    Ok(())
}
