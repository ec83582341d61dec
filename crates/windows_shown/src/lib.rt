//! What a viewer sees of a service of DTVCC that is sent the captions of a cue list: just the windows that the list authors, at
//! every frame. On the way to it: what a cue's commands make of its window, and that no buffer fills, however many delays there are
//! (CTA-708-E). Definitions and laws alone.
#![tactic(auto)]

pub mod laws;
pub mod loading_laws;
pub mod service_laws;
