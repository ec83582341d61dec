use cue_lists::{check, parse};
use frame_carrier::{Plan, placed_services};
use lanes::field_cursor::Cursor;
use lanes::{FieldChunk, FieldLane, PlacedField, PlacedService, PlacedUnit};
use line21_author::Event;
use std::mem::size_of;
use std::test::Fail;

// Is called for a type that can be copied.
fn is_copied<T: Copy>() {}

// A lane is as large as two vectors and a small cursor, which can be copied, so that it has no room for a frame.
#[test]
fn a_lane_keeps_two_vectors_and_a_small_cursor_and_no_frame(rt: HostRuntime) -> Result<(), Fail> {
    let alloc = rt.alloc();
    let chunks: Vec<FieldChunk> = Vec::new(alloc);
    let lane = FieldLane {
        chunks,
        events: Vec::new(alloc),
    };
    let Ok(_placed) = lane.place(alloc) else {
        return Err(Fail::from("no unit lacks room"));
    };
    is_copied::<Cursor>();
    let vectors = size_of::<Vec<PlacedUnit>>() + size_of::<Vec<Event>>();
    let cursor = size_of::<Cursor>();
    assert!(rt; cursor <= 256 && size_of::<PlacedField>() <= vectors + cursor);
    Ok(())
}

// A plan is as large as the two lanes of the fields, a vector of services' lanes, a rate and two numbers.
#[test]
fn a_plan_keeps_two_lanes_one_of_each_share_and_the_number_of_frames_left(
    rt: HostRuntime,
) -> Result<(), Fail> {
    let alloc = rt.alloc();
    let Ok(list) = parse(alloc, b"ccsuite,1,29.97,30\nshare,2,12\n") else {
        return Err(Fail::from("the list is good"));
    };
    let Ok(()) = check(&list) else {
        return Err(Fail::from("the list keeps the rules"));
    };
    let Ok(services) = placed_services(alloc, &list) else {
        return Err(Fail::from("no cue lacks room"));
    };
    let lanes = 2 * size_of::<PlacedField>() + size_of::<Vec<PlacedService>>();
    assert!(rt; size_of::<Plan>() <= lanes + 16 && services.len() == 1);
    Ok(())
}
