//! Time codes of video (SMPTE ST 12-1), counted at 24, 25, 30, 50 or 60 frames a second, at 30 and 60 drop frame and non-drop: the
//! frames that they name, and their texts.
#![tactic(auto)]

pub use crate::counting::Counting;
pub use crate::frames::{frame_in, frame_of, time_in, time_of};
pub use crate::text::{read_time, read_time_bytes, time_text};
pub use crate::time_code::TimeCode;

mod counting;
mod frames;
pub mod laws;
mod text;
mod time_code;
