//! Tests of captions as streams, and of runs over memory with their reports.
#![tactic(auto)]

#[cfg(test)]
mod reports;
#[cfg(test)]
mod streams;
