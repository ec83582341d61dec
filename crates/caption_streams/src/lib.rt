//! Captions as streams, for programs that live with them frame by frame. There are a builder of the frames of a cue list, a receiver of
//! words, of which frames may be missing, and a verifier of words against a cue list. Each takes its bytes in any pieces, and keeps
//! what it needs from one call to the next.
#![tactic(auto)]

pub use crate::building::{Building, FrameForm, NextFrame};
pub use crate::fault::FeedFault;
pub use crate::receiving::Receiving;
pub use crate::reception::Reception;
pub use crate::slice_source::SliceSource;
pub use crate::verifying::Verifying;
pub use grid_print::Changed;

mod building;
mod fault;
mod front;
mod receiving;
mod reception;
mod slice_source;
mod verifying;
