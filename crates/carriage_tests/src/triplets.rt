use cc_data::{Triplet, read_triplet, write_triplet};

// Of a triplet that doesn't count the program writes none but FA 00 00.
#[test]
fn triplets_that_do_not_count_are_written_and_read(rt: HostRuntime) {
    const BYTES: &[(u8, [u8; 3])] = &[(0, [0xF8, 0x00, 0xFF]), (2, [0xFA, 0x00, 0x00])];
    for &(kind, bytes) in BYTES {
        let [_, a, b] = bytes;
        let triplet = Triplet {
            valid: false,
            kind,
            a,
            b,
        };
        assert!(rt; read_triplet(bytes) == triplet && write_triplet(triplet) == bytes);
    }
}
