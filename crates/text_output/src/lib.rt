//! A text on its way to a sink: it is gathered, so that a run's cost isn't its number of puts, and may be longer than what is held.
#![tactic(auto)]

mod gathered;

pub use gathered::Gathered;
