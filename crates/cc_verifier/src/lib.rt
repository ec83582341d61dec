//! The checker of a words file against the cue list that it is to show. It goes through the words in any pieces, and finds the
//! first of what is wrong with the frames, in the order in which it is tried. Cursors over the cues tell what is to be seen at each
//! frame, and checks what differs.
#![tactic(auto)]

pub use crate::channel_checks::ChannelChecks;
pub use crate::channel_cursor::ChannelCursor;
pub use crate::channel_line::{Line, cell_at};
pub use crate::service_checks::ServiceChecks;
pub use crate::verifier::{Verdict, Verifier};
pub use crate::window_cursors::WindowCursors;
pub use crate::window_seen::window_differs;

mod area;
mod channel_chain;
mod channel_check;
mod channel_checks;
mod channel_cursor;
mod channel_line;
mod service_checks;
mod verifier;
mod window_cells;
mod window_cursors;
mod window_seen;
