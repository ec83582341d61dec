//! Laws of the words that commands put. A receiver that is fed them shows what is authored, also after a line lost some of their frames.
//! They are verified against their list, and fit to be converted; and no frame knows a cue that is loaded later. Definitions and laws alone.
#![tactic(auto)]

pub mod laws;
