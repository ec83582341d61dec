//! The slots of line 21 (CTA-608-E; 47 CFR 79.101): in which frames of a programme the byte pairs of each field lie, at every
//! rate.
#![tactic(auto)]

pub use crate::cadence::{Cadence, slot_step};

mod cadence;
