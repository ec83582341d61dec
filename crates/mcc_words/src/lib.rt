//! The words of MCC files: the packets in order, with frames without captions where some are missing, and counters raised by these.
//! A frame that is put for a missing one changes no screen, except if a delay of a service ends in it.
#![tactic(auto)]

pub use crate::maker::MccWords;
pub use crate::missing::MissingFrames;

pub mod laws;
mod maker;
mod missing;
pub mod missing_laws;
mod raised;
