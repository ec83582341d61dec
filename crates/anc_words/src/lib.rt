//! Ancillary packets (SMPTE ST 291-1) as the bytes of a words file: each ten-bit word as two bytes, the high
//! byte first, packets back to back. Closed captions are carried in the packets of SMPTE ST 334-1, with DID 61 and
//! SDID 01.
#![tactic(auto)]

mod caption_packet;
mod caption_words;
pub mod laws;
mod open_packet;
mod packets;
mod parts;
mod reader;
mod word_lanes;
mod words;

pub use caption_packet::CaptionPacket;
pub use packets::{CAPTION_DID, CAPTION_SDID, write_packet};
pub use parts::WordPart;
pub use reader::WordReader;
