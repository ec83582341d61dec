//! The command that makes the words of two cue lists: the first on CC1, CC3 and its services, the second on CC2 and CC4 beside it.
#![tactic(auto)]

pub use crate::dual::run_dual;

mod dual;
pub mod laws;
