//! Caption distribution packets (SMPTE ST 334-2): the packet of a frame with its rate, flags, counter
//! and sections, among them the triplets of cc_data (CTA-708-E), and the sum that ends it.
#![tactic(auto)]

pub mod laws;
mod open_packet;
mod open_triplet;
mod packets;
mod parts;
mod pieces;
mod reader;
mod sections;
mod whole_packet;
mod within;

pub use packets::{CAPTION_FLAGS, write_cdp};
pub use parts::CdpPart;
pub use reader::CdpReader;
pub use sections::{CC_DATA, TIME_CODE, cc_section, section_len};
pub use whole_packet::{WholePacket, read_summed_packet, split_section, triplet_bytes};
