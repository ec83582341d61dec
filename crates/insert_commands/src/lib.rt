//! The command `insert`: words with the captions of a cue list in place of their own, and what a receiver makes of them.
#![tactic(auto)]

pub use crate::insert::run_insert;

mod captions;
mod insert;
pub mod inserted_laws;
mod inserting;
