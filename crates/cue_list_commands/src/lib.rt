//! The commands that read a cue list: `pairs`, `build` and `cues`. A list is read to its end and judged before anything is put.
#![tactic(auto)]

pub use crate::accept::{read_list, read_programme};
pub use crate::build::run_build;
pub use crate::cues::run_cues;
pub use crate::pairs::run_pairs;
pub use frame_carrier::{Carrier, FrameBytes, Frames, Plan, Programme, put_words};

mod accept;
mod build;
mod cues;
pub mod laws;
mod lines;
mod pairs;
