//! What a caption in a window of DTVCC sends (CTA-708-E): its units, which are the commands that load it into its window, and
//! the bytes that hide and show the windows of a service.
#![tactic(auto)]

pub use crate::caption::{Caption, caption_of, captions};
pub use crate::cue::{push_units, units};
pub use crate::frame_events::{Delay, FrameEvents};
pub use crate::latest::Latest;
pub use crate::packed::PackedUnits;
pub use crate::unit::DUnits;
pub use cue_types::Cue;

mod caption;
mod commands;
mod cue;
mod frame_events;
mod latest;
mod packed;
mod unit;
