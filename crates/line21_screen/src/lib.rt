//! The screen of a line 21 caption receiver (CTA-608-E, 47 CFR 79.101): what the pairs of one field
//! leave in the two data channels' memories, and which of it is displayed.
#![tactic(auto)]

mod channel;
mod field;
pub mod laws;
mod memory;
mod modes;
mod pens;
mod rules;

pub use field::Field;
pub use memory::Memory;
pub use modes::Mode;
