ghost use Rattle.std.specs.Prelude.{◌≡◌, ◌<◌, ◌≤◌, [], ◌∷◌, IfOk, Some, vec_capacity, vec_len};

use cc_base::{Put, Sink};
use std::alloc::{AllocError, Global};

// A sink that keeps the front of what is put: as many bytes as it has room for. A put fails where it has more.
#[derive(Drop)]
pub(crate) struct Front {
    bytes: Vec<u8>,
    room: usize,
    faults: u64,
    ghost reserved: { room ≤ vec_capacity bytes },
    ghost within: { vec_len bytes ≤ room },
    ghost full: { 0 < faults → vec_len bytes ≡ room },
}

impl Front {
    // A sink with room for this many bytes, whose memory is taken here.
    pub(crate) fn new(alloc: Global, room: usize) -> Result<Front, AllocError>
        ensures kept { IfOk result (λ front. front.bytes.items ≡ []) }
        ensures room { IfOk result (λ front. front.room ≡ room) }
        ensures faults { IfOk result (λ front. front.faults ≡ 0) }
    {
        Ok(Front {
            bytes: Vec::with_capacity(alloc, room)?,
            room,
            faults: 0,
        })
    }

    // What it keeps.
    pub(crate) fn into_bytes(self) -> Vec<u8>
        ensures { result.items ≡ self.bytes.items }
    {
        let Front {
            bytes,
            room: _,
            faults: _,
        } = self;
        bytes
    }
}

impl Sink for Front {
    // Its room stands before the bytes, so that a put is known to leave it.
    ghost written = { λ front. Some (front.room ∷ front.bytes.items) };

    ghost faults = { λ front. front.faults };

    fn put(&mut self, bytes: &[u8]) -> Put {
        let count = bytes.len().min(self.room - self.bytes.len());
        if self.bytes.extend_from_slice(&bytes[..count]).is_err() {
            unreachable!();
        }
        if count < bytes.len() {
            self.faults = self.faults.saturating_add(1);
            Put::Failed
        } else {
            Put::Done
        }
    }
}
