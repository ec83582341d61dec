//! The types of cue lists: a list, its cues, their kinds, runs and texts, each in its ranges.
#![tactic(auto)]

pub use crate::cue::{Cue, Kind, Pen, Run, WinCue};
pub use crate::head::{Head, Version};
pub use crate::list::{CueList, LAST_SERVICE, MOST_CUES, MOST_FRAMES, Share};
pub use crate::runs::Runs;
pub use crate::text::Text;

pub mod cue;
pub mod head;
pub mod lane;
pub mod line21;
pub mod list;
pub mod runs;
pub mod text;
