//! Fitting: a cue list in which a cue that lacks room is shown as few frames late as the rules and the room let it.
#![tactic(auto)]

pub use crate::fitting::{MOST_LATE, fit};
pub use frame_scheduler::PlanFault;

pub mod copies;
mod fitting;
pub mod former;
pub mod shown;
