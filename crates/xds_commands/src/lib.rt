//! The command that makes the words of a cue list with packets of extended data in the slots of field 2 that its captions leave free.
#![tactic(auto)]

pub use crate::xds::run_xds;

pub mod laws;
mod packet_list;
mod xds;
