//! Words files as a whole: their frames, what a receiver gets of them, and where bytes offend that are none. Definitions, the laws
//! that join the layers, and the words that carry triplets (SMPTE ST 291-1, ST 334-1 and ST 334-2, CTA-708-E).
#![tactic(auto)]

pub use crate::carried::write_triplets;

mod carried;
pub mod laws;
