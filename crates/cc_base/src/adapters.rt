ghost use Rattle.std.specs.Prelude.{◌≡◌, ◌≤◌};
ghost use Rattle.cc_base.specs.Adapters.{flush_answer, flush_count, read_answer, read_count, write_answer, write_count};
ghost use Rattle.cc_base.specs.Streams.{PutCause, TakeCause};

use crate::streams::{Put, Sink, Source, Took};
use std::io::{Read, Write};

/// The answer of a take whose read gave this many bytes, or None where it failed, which is counted. 0 bytes are the end.
fn after_read(read: Option<usize>, faults: &mut u64) -> Took
    ensures answer { result ≡ read_answer read }
    ensures count { faults.new ≡ read_count read faults.old }
    ensures cause { TakeCause faults.old faults.new result }
{
    match read {
        None => {
            *faults = faults.saturating_add(1);
            Took::Failed
        }
        Some(0) => Took::End,
        Some(n) => Took::Got(n),
    }
}

/// How many bytes of a piece a write took that is None where it failed. A failure, and a write of 0 bytes, is counted, and
/// answered with None.
fn after_write(write: Option<usize>, faults: &mut u64) -> Option<usize>
    ensures answer { result ≡ write_answer write }
    ensures count { faults.new ≡ write_count write faults.old }
    ensures never_falls { faults.old ≤ faults.new }
{
    match write {
        None | Some(0) => {
            *faults = faults.saturating_add(1);
            None
        }
        Some(n) => Some(n),
    }
}

/// The answer of a put that was flushed, or whose flush failed, which is counted.
fn after_flush(flushed: bool, faults: &mut u64) -> Put
    ensures answer { result ≡ flush_answer flushed }
    ensures count { faults.new ≡ flush_count flushed faults.old }
    ensures cause { PutCause faults.old faults.new result }
{
    if flushed {
        Put::Done
    } else {
        *faults = faults.saturating_add(1);
        Put::Failed
    }
}

/// A source over a reader. It tells what is left where the reader does, which a file and standard input don't.
#[derive(Drop)]
pub struct ReaderSource<R: Read> {
    inner: R,
    faults: u64,
}

impl<R: Read> ReaderSource<R> {
    ghost use Rattle.cc_base.specs.Adapters.{reader_faults, reader_of};

    /// A source of what `inner` reads. A read of 0 bytes is the end, and each error is a fault.
    pub fn new(inner: R) -> ReaderSource<R>
        ensures reader { reader_of result ≡ inner }
        ensures faults { reader_faults result ≡ 0 }
    {
        ReaderSource { inner, faults: 0 }
    }
}

impl<R: Read> Source for ReaderSource<R> {
    ghost use Rattle.cc_base.specs.Adapters.{reader_faults, reader_of};

    ghost left = { λ s. R.remaining (reader_of s) };

    ghost faults = { λ s. reader_faults s };

    fn take(&mut self, buf: &mut [u8]) -> Took {
        let read = self.inner.read(buf).ok();
        after_read(read, &mut self.faults)
    }
}

/// A sink over a writer. It tells what is written where the writer does, which a file and standard output don't.
#[derive(Drop)]
pub struct WriterSink<W: Write> {
    inner: W,
    faults: u64,
}

impl<W: Write> WriterSink<W> {
    ghost use Rattle.cc_base.specs.Adapters.{writer_faults, writer_of};

    /// A sink that writes to `inner`, and flushes it after each piece that isn't empty. Each error, and a write of 0 bytes,
    /// is a fault.
    pub fn new(inner: W) -> WriterSink<W>
        ensures writer { writer_of result ≡ inner }
        ensures faults { writer_faults result ≡ 0 }
    {
        WriterSink { inner, faults: 0 }
    }
}

impl<W: Write> Sink for WriterSink<W> {
    ghost use Rattle.cc_base.specs.Adapters.{writer_faults, writer_of};

    ghost written = { λ s. W.contents (writer_of s) };

    ghost faults = { λ s. writer_faults s };

    fn put(&mut self, bytes: &[u8]) -> Put {
        let mut at = 0;
        while at < bytes.len() {
            let write = self.inner.write(&bytes[at..]).ok();
            match after_write(write, &mut self.faults) {
                Some(n) => at += n,
                None => return Put::Failed,
            }
        }
        if bytes.is_empty() {
            return Put::Done;
        }
        let flushed = self.inner.flush().is_ok();
        after_flush(flushed, &mut self.faults)
    }
}
