ghost use Rattle.std.specs.Prelude.{◌≡◌, ◌-◌, ◌≤◌, [], Some, IfOk, length, vec_capacity, vec_len};
ghost use Rattle.cc_base.specs.Streams.{PutCause, Puts, PutsEmpty};

use crate::memory_source::is_failing;
use crate::streams::{Put, Sink};
use std::alloc::{AllocError, Global};

/// A sink over memory of a chosen room that fails at chosen puts.
///
/// It tells what is written, and a put takes no memory.
#[derive(Drop)]
pub struct MemorySink {
    bytes: Vec<u8>,
    room: usize,
    failing: Vec<u64>,
    puts: u64,
    faults: u64,
    ghost reserved: { room ≤ vec_capacity bytes },
    ghost within: { vec_len bytes ≤ room },
}

impl MemorySink {
    ghost use Rattle.cc_base.specs.MemorySink.{sink_failing, sink_faults, sink_puts, sink_room, sink_written};

    /// A sink of this many bytes, all of whose memory is taken here. A put of a piece that isn't empty fails exactly where
    /// `failing` has its number among such puts, counted from 0, or where the room would be passed; it then writes nothing.
    ///
    /// The number of a put stands still at `u64::MAX`, and a put of that number fails only for room.
    pub fn new(alloc: Global, room: usize, failing: Vec<u64>) -> Result<MemorySink, AllocError>
        ensures written { IfOk result (λ sink. sink_written sink ≡ []) }
        ensures room { IfOk result (λ sink. sink_room sink ≡ room) }
        ensures failing { IfOk result (λ sink. sink_failing sink ≡ failing.items) }
        ensures puts { IfOk result (λ sink. sink_puts sink ≡ 0) }
        ensures faults { IfOk result (λ sink. sink_faults sink ≡ 0) }
    {
        Ok(MemorySink {
            bytes: Vec::with_capacity(alloc, room)?,
            room,
            failing,
            puts: 0,
            faults: 0,
        })
    }

    /// The bytes written so far.
    pub fn bytes(&self) -> &[u8]
        ensures { result.now ≡ sink_written self.now }
    {
        self.bytes.as_slice()
    }
}

impl Sink for MemorySink {
    ghost use Rattle.cc_base.specs.MemorySink.{PutsInMemory, sink_faults, sink_written};

    ghost written = { λ s. Some (sink_written s) };

    ghost faults = { λ s. sink_faults s };

    fn put(&mut self, bytes: &[u8]) -> Put
        ensures bytes { Puts (Some (sink_written self.old))
            (Some (sink_written self.new)) result bytes.now }
        ensures cause { PutCause (sink_faults self.old) (sink_faults self.new) result }
        ensures empty { PutsEmpty (Some (sink_written self.old))
            (Some (sink_written self.new)) result bytes.now }
        ensures memory { PutsInMemory self.old self.new result (length bytes.now) }
    {
        if bytes.is_empty() {
            return Put::Done;
        }
        let fails = is_failing(self.puts, &self.failing);
        self.puts = self.puts.saturating_add(1);
        if fails || bytes.len() > self.room - self.bytes.len() {
            self.faults = self.faults.saturating_add(1);
            return Put::Failed;
        }
        if self.bytes.extend_from_slice(bytes).is_err() {
            unreachable!();
        }
        Put::Done
    }
}
