//! Service blocks of DTVCC (CTA-708-E, section 6.2), which caption channel packets carry, read and written.
#![tactic(auto)]

pub mod laws;
mod open_block;
mod parts;
mod reader;
mod writing;

pub use parts::BlockPart;
pub use reader::BlockReader;
pub use writing::write_block;
