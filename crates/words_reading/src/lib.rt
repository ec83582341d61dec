//! The reading of words by the commands that read them: bytes are taken, judged and their text put, packet by packet, and nothing
//! of the input is gathered. What a command makes of the words, of their frames or of their packets, is its own.
#![tactic(auto)]

pub use crate::frames::{Frames, PerFrame};
pub use crate::judge::{Judge, Never, Reason, Stop};
pub use crate::packets::Packets;
pub use crate::words::{TAKE, WORDS_LIMIT, read_words};
pub use cc_receiver::{Ended, Receiver};

mod frames;
mod judge;
mod packets;
mod words;
