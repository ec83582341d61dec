//! A receiver of captions on a line that loses frames. It is reset where the counters of frames jump (SMPTE ST 334-2,
//! cdp_hdr_sequence_cntr), and shows a solid block for a byte of line 21 that it can't read (CTA-608-E; CTA-708-E).
#![tactic(auto)]

mod concealer;
mod grids;
pub mod laws;
mod numbers;
mod pairs;

pub use concealer::Concealer;
