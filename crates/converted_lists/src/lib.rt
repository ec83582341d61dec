//! What the words of a whole cue list become at twice the rate: they are converted without a misfit, where no delay is longer than 166
//! tenths of a second. Definitions and laws alone.
#![tactic(auto)]

pub mod laws;
