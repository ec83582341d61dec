use lanes::Budget;

/// Pieces: the bytes of each, whether they are granted, what is left after it, and what is held then.
const PIECES: [(u8, bool, u8, u8); 7] = [
    (100, true, 25, 102),
    (26, false, 25, 102),
    (255, false, 25, 102),
    (0, true, 25, 102),
    (24, true, 1, 126),
    (1, true, 0, 127),
    (1, false, 0, 127),
];

#[test]
fn pieces_are_granted_up_to_125_bytes(rt: HostRuntime) {
    let mut budget = Budget::begin(30, 60);
    assert!(rt; budget.left == 125 && budget.held_after() == 2);
    for (bytes, granted, left, held) in PIECES {
        assert!(rt; budget.spend(bytes) == granted);
        assert!(rt;
            budget
                == Budget {
                    start: 30,
                    end: 60,
                    left
                }
        );
        assert!(rt; budget.left <= 127 && budget.held_after() == held);
    }
}
