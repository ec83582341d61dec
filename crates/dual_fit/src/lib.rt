//! Fitting a second cue list beside a first one: each of its cues that lacks room is shown as few frames late as the rules and the
//! room beside the first list let it.
#![tactic(auto)]

pub use crate::fault::FitFault;
pub use crate::fitting::fit_beside;
pub use crate::times::Times;
pub use cue_fit::MOST_LATE;

mod fault;
mod fitting;
pub mod laws;
mod timed;
mod times;
mod trying;
