//! The command `fit`: a cue list whose cues are shown as few frames late as they need, by itself or beside a first list.
#![tactic(auto)]

pub use crate::fit::run_fit;
pub use crate::fit_beside::run_fit_beside;
pub use cue_fit::MOST_LATE;
pub use cue_list_commands::{run_build, run_cues, run_pairs};

mod fit;
mod fit_beside;
pub mod laws;
