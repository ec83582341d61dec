mod adapters;
mod resuming;

use cc_base::{
    MemorySink, MemorySource, Put, ReaderSource, Sink, Source, Took, WriterSink, put_pieces,
};
use std::test::Fail;

#[test]
fn pieces_and_failing_calls_come_in_turn(rt: HostRuntime) -> Result<(), Fail> {
    let alloc = rt.alloc();
    let bytes = b"abcdefgh".to_vec(alloc)?;
    let mut source = MemorySource::new(bytes, [2, 0, 9].to_vec(alloc)?, [1].to_vec(alloc)?);
    let mut buf = [0u8; 4];
    for (want, bytes) in [
        (Took::Got(2), b"ab"),
        (Took::Failed, b"ab"),
        (Took::Got(4), b"cd"),
        (Took::Got(2), b"gh"),
        (Took::End, b"gh"),
    ] {
        assert!(rt; source.take(&mut buf) == want && &buf[..2] == bytes.as_slice());
    }
    Ok(())
}

#[test]
fn a_sink_fails_at_chosen_puts_and_past_its_room(rt: HostRuntime) -> Result<(), Fail> {
    let alloc = rt.alloc();
    let mut sink = MemorySink::new(alloc, 5, [1].to_vec(alloc)?)?;
    assert!(rt;
        sink.put(b"abc") == Put::Done
            && sink.put(b"") == Put::Done
            && sink.put(b"d") == Put::Failed
            && sink.put(b"def") == Put::Failed
            && put_pieces(&[b"d", b"", b"e"], &mut sink) == Put::Done
            && sink.bytes() == b"abcde".as_slice()
    );
    Ok(())
}

#[test]
fn slices_are_sources_and_sinks(rt: HostRuntime) {
    let mut source = ReaderSource::new(b"caption".as_slice());
    let mut buf = [0u8; 8];
    assert!(rt; source.take(&mut buf) == Took::Got(7) && &buf[..7] == b"caption".as_slice());
    assert!(rt; source.take(&mut buf) == Took::End);
    let mut room = [0u8; 8];
    let mut sink = WriterSink::new(room.as_mut_slice());
    assert!(rt;
        sink.put(b"captions") == Put::Done
            && sink.put(b"") == Put::Done
            && sink.put(b"!") == Put::Failed
    );
}
