//! What line 21 shows of a cue list: the laws that tie the receiver's screen, pair by pair, to what was authored.
#![tactic(auto)]

pub mod laws;
