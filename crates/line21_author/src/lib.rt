//! What a line 21 cue sends (CTA-608-E, 47 CFR 79.101): its units, which are the pairs that load it
//! into a receiver's memory, and the events of a channel, which show and erase it.
#![tactic(auto)]

pub use crate::cue::units;
pub use crate::event::{Event, events};
pub use crate::unit::{Unit, Units};
pub use cue_lists::{Cue, CueList, LAST_SERVICE, line21};

mod channel;
mod cue;
mod event;
mod opening;
mod run;
mod text;
mod unit;
