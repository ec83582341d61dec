//! The command that converts words from 29.97 to 59.94 frames a second: `convert`. It takes, judges and puts frame by frame, and gathers
//! nothing of the input.
#![tactic(auto)]

pub use crate::convert::run_convert;

mod convert;
mod converting;
pub mod laws;
