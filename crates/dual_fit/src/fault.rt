use std::alloc::AllocError;
use thiserror::Error;

/// Why a second list can't be fitted beside a first one. Records, fields and cues are counted from 1.
#[derive(Debug, Drop, Error)]
pub enum FitFault {
    /// Memory ran out.
    #[error("out of memory")]
    Memory(AllocError),
    /// This field of the second list isn't as the first list asks: its rate or its number of frames is another, or it has a share.
    #[error("malformed at record {rec} field {field}: OtherList")]
    OtherList { rec: u32, field: u32 },
    /// This cue is the first of the first list whose units have no placement, with no second list beside it.
    #[error("no room in CUES: cue {0}")]
    NoRoomBeside(u32),
    /// This cue is the first of the second list that can't be shown beside the first list, however late it may be.
    #[error("no room: cue {0}")]
    NoRoom(u32),
}
