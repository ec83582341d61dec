//! Caption channel packets (CTA-708-E, section 5), which carry the service blocks of DTVCC in triplets of cc_data, read and
//! written.
#![tactic(auto)]

pub mod laws;
mod open_packet;
mod parts;
mod reader;
mod writer;

pub use parts::PacketPart;
pub use reader::PacketReader;
pub use writer::PacketWriter;
