use cc_base::{LimitOf, Refusal};
use std::alloc::AllocError;

/// Why bytes weren't read as an SCC file.
#[derive(Drop)]
pub enum SccFault {
    /// There was no memory for the pairs.
    Memory(AllocError),
    /// The file is good, and has more than 2,592,000 frames (Frames).
    Limit(LimitOf),
    /// The first offence: the number of a byte, counted from 0, or of bytes, where the file ends too soon; and the reason, which is
    /// Header, SccSyntax, NoSuchTime or Backwards.
    Malformed(Refusal),
}
