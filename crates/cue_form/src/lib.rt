//! The form of cue lists: which list the records of a CSV file spell, up to their first fault, and how a list is printed. What
//! fields of any records have, and which offence of theirs comes first, is here too.
#![tactic(auto)]

pub use crate::draft::Draft;
pub use crate::fault::CueFault;
pub use crate::offence::{Offence, count_place, out_of_form};
pub use crate::printing::print;
pub use crate::reading::parse;
pub use crate::record_fields::{field, is_word, read_number, read_within};
pub use crate::record_kind::RecordKind;

mod draft;
pub mod fault;
mod fields;
pub mod laws;
pub mod offence;
pub mod print_laws;
mod printing;
mod reading;
pub mod record_fields;
mod record_kind;
mod records;
mod spelling;
mod texts;
