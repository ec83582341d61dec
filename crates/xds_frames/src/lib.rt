//! The frames of a cue list with packets of extended data in the slots of field 2 that its captions leave free (CTA-608-E). A
//! viewer sees the captions as without them, and the packets are read.
#![tactic(auto)]

pub use crate::fault::XdsPlanFault;
pub use crate::loads::Loads;
pub use crate::packets::Packets;
pub use crate::plan::{XdsFrames, plan_xds};
pub use crate::room::first_without_room;

pub mod beside_laws;
mod fault;
pub mod laws;
mod list_packets;
mod loads;
mod packets;
mod plan;
mod room;
mod span;
