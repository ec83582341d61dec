//! Findings of frames: what a checker of words, or a command that goes through them frame by frame, finds at a frame; and why a frame
//! can't be converted to another rate.
#![tactic(auto)]

pub use crate::finding::{Finding, Kind45, Which};
pub use crate::misfit::{Misfit, MisfitKind};

mod finding;
mod misfit;
