ghost use Rattle.std.specs.Prelude.{◌≡◌, [], IfOk, Some};

use cc_base::{Put, Sink};
use std::alloc::{AllocError, Global};

// A sink that keeps all that is put. A put fails only where no memory is found for it, and then nothing of it is kept.
#[derive(Drop)]
pub(crate) struct WholeOutput {
    bytes: Vec<u8>,
    faults: u64,
}

impl WholeOutput {
    // An empty one; this many bytes need no further memory.
    pub(crate) fn new(alloc: Global, room: usize) -> Result<WholeOutput, AllocError>
        ensures bytes { IfOk result (λ output. output.bytes.items ≡ []) }
        ensures faults { IfOk result (λ output. output.faults ≡ 0) }
    {
        Ok(WholeOutput {
            bytes: Vec::with_capacity(alloc, room)?,
            faults: 0,
        })
    }

    // The bytes that were put.
    pub(crate) fn bytes(&self) -> &[u8]
        ensures { result.now ≡ self.now.bytes.items }
    {
        self.bytes.as_slice()
    }
}

impl Sink for WholeOutput {
    ghost written = { λ output. Some output.bytes.items };

    ghost faults = { λ output. output.faults };

    fn put(&mut self, bytes: &[u8]) -> Put {
        if bytes.is_empty() {
            return Put::Done;
        }
        if self.bytes.extend_from_slice(bytes).is_err() {
            self.faults = self.faults.saturating_add(1);
            return Put::Failed;
        }
        Put::Done
    }
}
