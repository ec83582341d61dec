//! What a receiver shows of a placed list after frames are lost. On each channel of line 21 and in each service of DTVCC what is
//! authored is seen again, once all that is seen of it was loaded since. Definitions and laws alone.
#![tactic(auto)]

pub mod channel_laws;
pub mod laws;
pub mod step_laws;
pub mod window_laws;
