//! The commands `export-mcc`, which writes the MCC file of all packets that words carry, and `import-mcc`, which makes the words of
//! an MCC file. What the first writes of words, the second makes into the same words, byte for byte.
#![tactic(auto)]

pub use crate::export::run_export_mcc;
pub use crate::import::run_import_mcc;
pub use crate::import_stop::MccStop;

mod adding;
mod clock;
mod export;
pub mod export_laws;
mod export_stop;
mod exporting;
mod hearing;
mod import;
mod import_stop;
pub mod imported_laws;
mod importing;
mod item_words;
mod lines;
mod made;
mod passing;
pub mod round_trip_laws;
mod said;
mod start;
