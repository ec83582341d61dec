use cc_base::Rate;
use line21_codes::Chan;
use line21_slots::{Cadence, slot_step};

// Each rate, its step from slot to slot of a field, and the cadences of field 1 and field 2.
const RATES: [(Rate, u32, Cadence, Cadence); 8] = [
    (Rate::F23976, 1, Cadence::EveryFrame, Cadence::EveryFrame),
    (Rate::F24, 1, Cadence::EveryFrame, Cadence::EveryFrame),
    (Rate::F25, 1, Cadence::EveryFrame, Cadence::EveryFrame),
    (Rate::F2997, 1, Cadence::EveryFrame, Cadence::EveryFrame),
    (Rate::F30, 1, Cadence::EveryFrame, Cadence::EveryFrame),
    (Rate::F50, 1, Cadence::EveryFrame, Cadence::EveryFrame),
    (Rate::F5994, 2, Cadence::EvenFrames, Cadence::OddFrames),
    (Rate::F60, 2, Cadence::EvenFrames, Cadence::OddFrames),
];

#[test]
fn the_fields_take_turns_at_59_94_and_60(rt: HostRuntime) {
    for (rate, step, first, second) in RATES {
        assert!(rt;
            slot_step(rate) == step
                && Cadence::of(rate, Chan::Cc1) == first
                && Cadence::of(rate, Chan::Cc2) == first
                && Cadence::of(rate, Chan::Cc3) == second
                && Cadence::of(rate, Chan::Cc4) == second
        );
    }
}

#[test]
fn slots_lie_in_frames(rt: HostRuntime) {
    for frame in 0..6 {
        let is_even = frame % 2 == 0;
        assert!(rt;
            Cadence::EveryFrame.has_slot_in(frame)
                && Cadence::EvenFrames.has_slot_in(frame) == is_even
                && Cadence::OddFrames.has_slot_in(frame) != is_even
        );
    }
    assert!(rt; Cadence::EvenFrames.slot_from(4_294_967_295) == 2_147_483_648);
}
