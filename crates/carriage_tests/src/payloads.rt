use arrayvec::ArrayVec;
use mcc_files::{PayloadReader, packet_line};
use time_codes::Counting;

// A payload is read in place of what was read before: nothing, items, an open digit, or a whole packet, of which a reader may have taken the
// first byte too many. Where none is read, nothing is.
#[test]
fn payloads_are_read_in_place(rt: HostRuntime) {
    const FRONTS: &[&[u8]] = &[
        b"",
        b"8001",
        b"T4",
        b"Z8",
        b"T49S494F43ZZ72F4QROO74ZZBFAB",
        b"8001Z81G",
    ];
    let packet: &[u8] = &[0x80, 0x01, 0x01, 0x77, 0xF9];
    for &front in FRONTS {
        let mut reader = PayloadReader::new();
        for byte in front {
            let _ = reader.take(*byte);
        }
        assert!(rt; reader.read_payload(b"80010177F9\n") == Some(b"\n".as_slice()));
        assert!(rt; reader.bytes() == packet && reader.is_whole());
        assert!(rt; reader.take(b'0').is_err());
        assert!(rt; reader.read_payload(b"80010177F8").is_none());
        assert!(rt; reader.bytes().is_empty() && reader.take(b'0').is_ok());
    }
}

// A packet of captions without user words is a payload, and one that is written, though no words file has it.
#[test]
fn a_packet_of_captions_may_be_empty(rt: HostRuntime) {
    let mut reader = PayloadReader::new();
    for byte in b"T0062" {
        assert!(rt; reader.take(*byte).is_ok());
    }
    let count = Counting::F50;
    assert!(rt; 0 < count.day_frames());
    let mut out = ArrayVec::new();
    packet_line(count, 0, 0x61, 0x01, &[], &mut out);
    assert!(rt; reader.is_whole() && out.as_slice() == b"00:00:00:00\tTZ62\n".as_slice());
}
