//! Conversion of captions from 29.97 to 59.94 frames a second (SMPTE ST 334-1 and ST 334-2; CTA-608-E; CTA-708-E). Each frame
//! becomes two that carry the same, unless it can't be converted or something else would be seen. A receiver shows after the halves
//! of frames what it shows after the whole ones.
#![tactic(auto)]

pub use crate::converter::Converter;
pub use crate::halver::Halver;
pub use findings::{Misfit, MisfitKind, Which};

mod converter;
mod differing;
pub mod halved_laws;
mod halver;
mod halves;
pub mod laws;
mod sorted;
