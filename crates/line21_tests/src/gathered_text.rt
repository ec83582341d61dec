use cc_base::{MemorySink, Put};
use std::alloc::AllocError;
use text_output::Gathered;

#[test]
fn a_text_longer_than_the_room_is_put_in_order(rt: HostRuntime) -> Result<(), AllocError> {
    let alloc = rt.alloc();
    let mut sink = MemorySink::new(alloc, 300_000, Vec::new(alloc))?;
    let mut text = Gathered::new();
    text.begin();
    let long = [b'l'; 70_000];
    for piece in [&[b'a'; 40_000], &[b'b'; 40_000]] {
        text.write(piece, &mut sink);
    }
    text.write(&long, &mut sink);
    text.write_number(4_294_967_295, &mut sink);
    text.write_character('♪', &mut sink);
    assert!(rt; text.answer() == Put::Done);
    assert!(rt; text.flush(&mut sink) == Put::Done);
    let bytes = sink.bytes();
    assert!(rt;
        bytes.len() == 150_013
            && bytes.starts_with(&[b'a'; 40_000])
            && bytes.ends_with(b"ll4294967295\xE2\x99\xAA")
            && &bytes[79_999..80_001] == b"bl".as_slice()
    );
    Ok(())
}

#[test]
fn nothing_is_written_behind_a_put_that_failed(rt: HostRuntime) -> Result<(), AllocError> {
    let alloc = rt.alloc();
    let mut sink = MemorySink::new(alloc, 50_000, Vec::new(alloc))?;
    let mut text = Gathered::new();
    text.begin();
    for piece in [&[b'a'; 40_000], &[b'b'; 40_000], &[b'c'; 40_000]] {
        text.write(piece, &mut sink);
    }
    assert!(rt; text.answer() == Put::Failed && sink.bytes().ends_with(&[b'a'; 40_000]));
    Ok(())
}
