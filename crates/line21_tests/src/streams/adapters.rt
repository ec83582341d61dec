//! The adapters over a reader and a writer that fail at a chosen call.

use cc_base::{Put, ReaderSource, Sink, Source, Took, WriterSink};
use std::io;
use std::io::{Read, Write};

/// A reader that gives its text byte by byte, and is interrupted at the call of a number.
#[derive(Drop)]
struct Interrupted<'a> {
    text: &'a [u8],
    calls: u8,
    failing: u8,
}

impl<'a> Read for Interrupted<'a> {
    fn read(&mut self, buf: &mut [u8]) -> io::Result<usize> {
        let call = self.calls;
        self.calls = self.calls.saturating_add(1);
        if call == self.failing {
            return Err(io::Error::from(io::ErrorKind::Interrupted));
        }
        match (self.text, buf) {
            ([byte, rest @ ..], [place, ..]) => {
                *place = *byte;
                self.text = rest;
                Ok(1)
            }
            _ => Ok(0),
        }
    }
}

#[test]
fn a_read_that_fails_is_a_failed_take_and_isnt_tried_again(rt: HostRuntime) {
    let runs = [
        (0, [Took::Failed, Took::Got(1), Took::Got(1), Took::End]),
        (1, [Took::Got(1), Took::Failed, Took::Got(1), Took::End]),
        (2, [Took::Got(1), Took::Got(1), Took::Failed, Took::End]),
        (3, [Took::Got(1), Took::Got(1), Took::End, Took::Failed]),
    ];
    for (failing, takes) in runs {
        let mut source = ReaderSource::new(Interrupted {
            text: b"ab",
            calls: 0,
            failing,
        });
        let mut buf = [0u8; 4];
        for due in takes {
            assert!(rt; source.take(&mut buf) == due);
        }
    }
}

/// A writer that takes at most two bytes a call, fails at the call of a number, and counts its flushes.
#[derive(Drop)]
struct Choppy {
    got: Vec<u8>,
    calls: u8,
    failing: u8,
    flushes: u8,
}

impl Write for Choppy {
    fn write(&mut self, buf: &[u8]) -> io::Result<usize> {
        let call = self.calls;
        self.calls = self.calls.saturating_add(1);
        if call == self.failing {
            return Err(io::Error::from(io::ErrorKind::Interrupted));
        }
        let most = buf.len().min(2);
        self.got.extend_from_slice(&buf[..most])?;
        Ok(most)
    }

    fn flush(&mut self) -> io::Result<()> {
        let call = self.calls;
        self.calls = self.calls.saturating_add(1);
        self.flushes = self.flushes.saturating_add(1);
        if call == self.failing {
            return Err(io::Error::from(io::ErrorKind::BrokenPipe));
        }
        Ok(())
    }
}

// The number of the call that fails, what the put answers, what was written, and the flushes.
const PUTS: [(u8, Put, &[u8], u8); 5] = [
    (0, Put::Failed, b"", 0),
    (1, Put::Failed, b"ab", 0),
    (2, Put::Failed, b"abcd", 0),
    (3, Put::Failed, b"abcde", 1),
    (4, Put::Done, b"abcde", 1),
];

#[test]
fn a_put_writes_all_and_flushes_once_or_fails(rt: HostRuntime) {
    for (failing, due, got, flushes) in PUTS {
        let mut writer = Choppy {
            got: Vec::new(rt.alloc()),
            calls: 0,
            failing,
            flushes: 0,
        };
        let mut sink = WriterSink::new(&mut writer);
        assert!(rt; sink.put(b"") == Put::Done && sink.put(b"abcde") == due);
        assert!(rt; writer.got.as_slice() == got && writer.flushes == flushes);
    }
}
