use std::alloc::AllocError;
use thiserror::Error;

/// Why a cue list and packets beside its captions have no plan.
#[derive(Debug, Drop, Error)]
pub enum XdsPlanFault {
    /// Memory ran out.
    #[error("out of memory")]
    Memory(AllocError),
    /// The cue of this number, counted from 1, is the first whose units have no placement.
    #[error("no room: cue {0}")]
    NoRoom(u32),
    /// The packet of this number, counted from 1, is the first whose end pair finds no free slot in the list's frames.
    #[error("no room: packet {0}")]
    NoXdsRoom(u32),
}
