//! The captions of one frame on their way between triplets of cc_data (CTA-708-E), a caption distribution packet (SMPTE ST 334-2) and the
//! words of an ancillary packet (SMPTE ST 334-1). It is for those who have but one of the three.
#![tactic(auto)]

pub use crate::reading::{FrameData, cdp_of_words, frame_of_words};
pub use crate::writing::{words_of_cc_data, words_of_cdp};

mod reading;
mod writing;
