//! The command `verify`: a cue list is read to its end from the side file and judged, and then words are taken and verified against
//! it, frame by frame.
#![tactic(auto)]

pub use crate::verify::run_verify;

mod nowhere;
mod verify;
mod verifying;
