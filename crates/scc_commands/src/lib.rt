//! The commands of SCC files: `import` puts the words that carry an SCC file's pairs, and `export` the SCC file of the pairs that words
//! carry in field 1.
#![tactic(auto)]

pub use crate::export::run_export;
pub use crate::import::run_import;

mod cursor;
mod export;
mod exporting;
mod finding;
mod import;
pub mod laws;
