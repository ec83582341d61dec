//! MCC files, by which captioning houses exchange whole ancillary packets: which text is the payload of which packet, and which
//! bytes are a file of which packets at which frames. Where other texts and bytes first offend, and how packets are written, is
//! here too.
#![tactic(auto)]

pub use crate::letters::letter_bytes;
pub use crate::payload_reader::{Item, Offence, PayloadReader};
pub use crate::payload_writer::{add_payload, write_payload};
pub use crate::reader::MccReader;
pub use crate::writer::{HEAD, LINE, head, packet_line, words_line};

mod ahead;
pub mod laws;
mod letters;
pub mod payload_laws;
mod payload_reader;
mod payload_writer;
mod phase;
mod reader;
pub mod reading;
mod writer;
