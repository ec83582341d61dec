use arrayvec::ArrayVec;
use cc_data::{Triplet, read_triplet};
use channel_packets::PacketWriter;

#[test]
fn packets_are_numbered_and_completed(rt: HostRuntime) {
    let mut writer = PacketWriter::new();
    let mut one: ArrayVec<Triplet, 64> = ArrayVec::new();
    writer.write(&[0x21], &mut one);
    assert!(rt; one.as_slice() == [read_triplet([0xFF, 0x01, 0x21])].as_slice());
    // an even number of bytes is completed by a byte 00
    let mut two: ArrayVec<Triplet, 64> = ArrayVec::new();
    writer.write(&[0x21, 0x41], &mut two);
    let start = read_triplet([0xFF, 0x42, 0x21]);
    assert!(rt; two.as_slice() == [start, read_triplet([0xFE, 0x41, 0x00])].as_slice());
    let mut three: ArrayVec<Triplet, 64> = ArrayVec::new();
    writer.write(&[0x21, 0x41, 0x22], &mut three);
    let start = read_triplet([0xFF, 0x82, 0x21]);
    let more = read_triplet([0xFE, 0x41, 0x22]);
    assert!(rt; three.as_slice() == [start, more].as_slice());
    let mut four: ArrayVec<Triplet, 64> = ArrayVec::new();
    writer.write(&[0x21, 0x41, 0x22, 0x42], &mut four);
    let start = read_triplet([0xFF, 0xC3, 0x21]);
    let last = read_triplet([0xFE, 0x42, 0x00]);
    assert!(rt; four.as_slice() == [start, more, last].as_slice());
    let mut again: ArrayVec<Triplet, 64> = ArrayVec::new();
    writer.write(&[0x21], &mut again);
    assert!(rt; again.as_slice() == one.as_slice());
}

#[test]
fn the_longest_packets_have_64_triplets(rt: HostRuntime) {
    let bytes = [0x55; 127];
    for count in [126, 127] {
        let mut writer = PacketWriter::new();
        let mut out: ArrayVec<Triplet, 64> = ArrayVec::new();
        writer.write(&bytes[..count], &mut out);
        assert!(rt; out.len() == 64 && out[0].a == 0x00);
    }
}
