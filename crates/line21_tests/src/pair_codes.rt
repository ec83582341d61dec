use line21_codes::{Code, Control, Doubler, Pair, basic_char, extended_char, special_char};

#[test]
fn bytes_and_pairs_without_a_character_have_none(rt: HostRuntime) {
    assert!(rt;
        basic_char(0x80).is_none()
            && special_char(0x40).is_none()
            && extended_char(0x14, 0x20).is_none()
            && extended_char(0x13, 0x40).is_none()
    );
}

// Each pair, and whether it is ignored.
const PAIRS: [(u8, u8, bool); 14] = [
    (0x94, 0x20, false),
    (0x94, 0x20, true),
    (0x94, 0x20, false),
    (0x94, 0x20, true),
    (0x15, 0x20, false),
    (0x94, 0x20, false),
    (0x80, 0x80, false),
    (0x94, 0x20, false),
    (0x14, 0x20, false),
    (0x14, 0x20, false),
    (0xC1, 0xC1, false),
    (0xC1, 0xC1, false),
    (0x10, 0x20, false),
    (0x10, 0x20, true),
];

#[test]
fn every_second_equal_control_pair_is_ignored(rt: HostRuntime) {
    let mut doubler = Doubler::new();
    assert!(rt; doubler == Doubler::default());
    for (a, b, ignored) in PAIRS {
        assert!(rt; doubler.step(Pair { a, b }) == ignored);
    }
}

#[test]
fn skipped_control_codes_are_sent_twice(rt: HostRuntime) {
    let skipped = Code::Control {
        second: false,
        control: Control::Skipped,
    };
    assert!(rt;
        skipped.is_doubled()
            && Pair { a: 0x10, b: 0x20 }.is_control()
            && !Pair { a: 0x14, b: 0x20 }.is_control()
    );
}
