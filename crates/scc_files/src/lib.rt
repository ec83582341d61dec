//! SCC files, as captioning houses exchange line 21 captions: which bytes are an SCC file of which pairs at which frames, where
//! other bytes first offend, and how pairs are written.
#![tactic(auto)]

pub use crate::fault::SccFault;
pub use crate::pairs::SccPairs;
pub use crate::reading::read_scc;
pub use crate::writer::{HEAD, PIECE, SccPut, SccWriter};

mod fault;
pub mod laws;
mod pairs;
mod phase;
mod reader;
mod reading;
mod words;
mod writer;
