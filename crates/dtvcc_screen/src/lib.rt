//! A service of DTVCC (CTA-708-E): its windows, what its commands do to them, and its delays.
#![tactic(auto)]

mod change;
mod clock;
mod cores;
mod held;
pub mod laws;
mod screen;
mod service;

pub use clock::Clock;
pub use cores::Core;
pub use service::Service;
