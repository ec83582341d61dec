use std::alloc::AllocError;
use thiserror::Error;

/// Why a cue list has no plan.
#[derive(Debug, Drop, Error)]
pub enum PlanFault {
    /// Memory ran out.
    #[error("out of memory")]
    Memory(AllocError),
    /// The cue of this number, counted from 1, is the first whose units have no placement.
    #[error("no room: cue {0}")]
    NoRoom(u32),
}
