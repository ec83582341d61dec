//! The receiver of captions. It reads the bytes of a words file, in any pieces (SMPTE ST 291-1, ST 334-1 and ST 334-2). It has
//! the screens of line 21 (CTA-608-E; 47 CFR 79.101) and the windows of the 63 services of DTVCC (CTA-708-E).
#![tactic(auto)]

mod captions;
mod channel;
mod filling;
mod frame;
mod grids;
pub mod laws;
mod receiver;
mod services;
mod triplets;

pub use findings::{Finding, Kind45, Which};
pub use grids::{Grids, Touched};
pub use receiver::{Ended, Fed, Receiver};
pub use services::Served;
