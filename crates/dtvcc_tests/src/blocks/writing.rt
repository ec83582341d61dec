use arrayvec::ArrayVec;
use service_blocks::write_block;

#[test]
fn blocks_are_appended(rt: HostRuntime) {
    let mut out: ArrayVec<u8, 16> = ArrayVec::new();
    write_block(1, &[0x41, 0x42], &mut out);
    write_block(6, &[0x43], &mut out);
    write_block(7, &[0x44], &mut out);
    write_block(63, &[0x45, 0x46], &mut out);
    let expected = [
        0x22, 0x41, 0x42, 0xC1, 0x43, 0xE1, 0x07, 0x44, 0xE2, 0x3F, 0x45, 0x46,
    ];
    assert!(rt; out.as_slice() == expected.as_slice());
    let mut longest: ArrayVec<u8, 33> = ArrayVec::new();
    write_block(8, &[0x41; 31], &mut longest);
    assert!(rt; longest.len() == 33);
    assert!(rt; longest[0] == 0xFF && longest[1] == 0x08 && longest[32] == 0x41);
}
