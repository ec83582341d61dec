//! Records of cue lists as they come: the records that are found in bytes that come in any pieces, and one cue's records by themselves.
#![tactic(auto)]

pub use crate::cue_reader::CueReader;
pub use crate::record_reader::RecordReader;
pub use crate::record_role::RecordRole;

mod cue_reader;
pub mod laws;
mod record_reader;
mod record_role;
mod record_state;
