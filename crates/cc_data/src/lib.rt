//! Triplets of cc_data (CTA-708-E): three bytes that carry two bytes of captions, their kind and
//! whether they count, read and written.
#![tactic(auto)]

pub mod laws;
mod triplet;

pub use triplet::{
    FIELD_1, FIELD_2, FILLER, PACKET_DATA, PACKET_START, Triplet, read_triplet, write_triplet,
};
