//! Where the units of each cue stand: the earliest placement in each field's lane and in each lane of a service with a share,
//! or the first cue without room. And the pairs and service blocks of each frame, in order.
#![tactic(auto)]

pub use crate::frames::{FrameBytes, Frames, Plan};
pub use crate::planning::{fault_beside, placed_services, plan};
pub use lanes::PlanFault;

mod blocks;
mod frames;
pub mod laws;
mod planning;
