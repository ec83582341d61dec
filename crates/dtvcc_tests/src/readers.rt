use channel_packets::PacketReader;
use dtvcc_codes::{CommandReader, OpenCommand};
use service_blocks::BlockReader;
use std::mem::size_of;

#[test]
fn readers_are_small(rt: HostRuntime) {
    assert!(rt; size_of::<PacketReader>() <= 96 && size_of::<BlockReader>() <= 96);
    assert!(rt; size_of::<OpenCommand>() <= 24 && size_of::<CommandReader>() <= 96);
}
