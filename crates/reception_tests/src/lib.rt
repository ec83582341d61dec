//! Tests of receivers: what they say of frames, of services and of refusals.
#![tactic(auto)]

#[cfg(test)]
mod receivers;
