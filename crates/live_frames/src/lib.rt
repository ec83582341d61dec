//! Live frames: no frame knows a cue that is loaded later. With further cues at its end, a cue list has the same frames below the
//! least LOAD of these; so a builder takes cues while its frames go out.
#![tactic(auto)]

pub use crate::live::Live;
pub use crate::live_fault::LiveFault;

pub mod laws;
mod live;
mod live_fault;
