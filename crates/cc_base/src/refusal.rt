use crate::why::Why;

/// Where a resumable reader refused its input, and why.
#[derive(Clone, Copy, PartialEq, Eq)]
pub struct Refusal {
    /// The number of the refused item, counted from 0 at the reader's start, modulo 2^64; for a word of two bytes its
    /// first byte's.
    pub place: u64,
    /// The reason.
    pub why: Why,
}
