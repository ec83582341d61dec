use cue_lists::RuleFault;
use std::alloc::AllocError;

/// Why a cue is left out.
#[derive(Drop)]
pub enum LiveFault {
    /// The list has 20,000 cues, the most that a cue list has.
    Cues,
    /// The list with the cue breaks a rule.
    Rule(RuleFault),
    /// The cue has its LOAD before this frame, which is the next.
    Late(u32),
    /// The list with the cue has no placement. This is the number of its first cue without one, counted from 1: the cue itself, or
    /// an earlier one that would lose its room.
    NoRoom(u32),
    /// Memory ran out.
    Memory(AllocError),
}
