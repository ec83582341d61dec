//! Packets of extended data services in field 2 of line 21 (CTA-608-E, 47 CFR 79.101). Here are what is read of them in pairs, the codes that
//! they are sent by, and the slots that they stand in beside captions.
#![tactic(auto)]

pub mod laws;
mod packets;
mod reader;
mod segments;
mod texts;
mod under_way;

pub use packets::{XdsPacket, checksum, sum_of};
pub use reader::XdsReader;
pub use texts::XdsText;
