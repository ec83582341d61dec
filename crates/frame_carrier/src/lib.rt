//! Programmes as ancillary words. The pairs of a frame and its service blocks stand in triplets of cc_data (CTA-708-E), these in a
//! caption distribution packet (SMPTE ST 334-2), and this in an ancillary packet (SMPTE ST 334-1). A programme is frames in order,
//! whatever makes them; its words are put into a sink.
#![tactic(auto)]

pub use crate::carrier::Carrier;
pub use crate::overlaid::Overlaid;
pub use crate::overlay::Overlay;
pub use crate::programme::Programme;
pub use crate::put::put_words;
pub use frame_scheduler::{
    FrameBytes, Frames, Plan, PlanFault, fault_beside, placed_services, plan,
};

mod carrier;
pub mod laws;
mod overlaid;
mod overlay;
mod programme;
mod put;
mod triplets;
