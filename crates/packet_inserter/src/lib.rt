//! Captions that are put into a caption distribution packet in place of those that it has (SMPTE ST 334-2).
#![tactic(auto)]

mod insertion;
pub mod laws;
mod places;

pub use insertion::insert;
