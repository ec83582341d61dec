//! The 63 services of a DTVCC caption channel (CTA-708-E) under one clock. What a frame costs is what its bytes cost, and the
//! services are gone through only in a frame in which a delay may end.
#![tactic(auto)]

mod members;
mod passing;
mod services;

pub use services::{SERVICES, Services};
