use std::alloc::AllocError;
use thiserror::Error;

/// Why two cue lists have no plan together. Records and fields are counted from 1, as cues are.
#[derive(Debug, Drop, Error)]
pub enum DualFault {
    /// Memory ran out.
    #[error("out of memory")]
    Memory(AllocError),
    /// This field of the second list isn't as the first list asks: its rate or its number of frames is another, or it has a share.
    #[error("malformed at record {rec} field {field}: OtherList")]
    OtherList { rec: u32, field: u32 },
    /// Events of these cues hold one slot of a field.
    #[error("rule FieldClash: cue {second} and cue {first}")]
    FieldClash { second: u32, first: u32 },
    /// This cue is the first of the first list whose units have no placement.
    #[error("no room: cue {0}")]
    NoRoom(u32),
    /// This cue is the first of the second list whose units have no placement beside the first list's.
    #[error("no room in CUES: cue {0}")]
    NoRoomBeside(u32),
}
