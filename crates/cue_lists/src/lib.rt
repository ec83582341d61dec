//! Cue lists: the rules that a list keeps, and what it is to show at each frame, by the frames of its cues and the places of their
//! runs alone. The types of lists and their form are handed on.
#![tactic(auto)]

pub use crate::rules::{RuleFault, check};
pub use cue_form::{CueFault, fault, parse, print, read_within};
pub use cue_types::{
    Cue, CueList, Kind, LAST_SERVICE, Pen, Run, Runs, Share, Text, Version, WinCue, cue, head,
    lane, line21, list,
};
pub use line21_slots::Cadence;

pub mod grid_laws;
pub mod laws;
pub mod rule_laws;
pub mod rules;
