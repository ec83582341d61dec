//! The command `load`: a list of many captions is made, planned, carried and received, and what came of it is put in four lines.
//! The list of each number of captions is in its form, keeps the rules and has room.
#![tactic(auto)]

pub use crate::list::{MOST_LOAD, load_list};
pub use crate::load::run_load;

pub mod laws;
mod list;
mod load;
mod reception;
mod summary;
