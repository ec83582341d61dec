//! Whole runs of the program over memory: what a run is given, and how it ends; and packets of captions that are made by hand.
#![tactic(auto)]

pub use crate::given::Given;
pub use crate::runs::{Ended, run_to_end, words_of};
pub use ccsuite_cli::{Place, Status, run, run_without_words, side_of};

mod given;
mod runs;
pub mod words;
