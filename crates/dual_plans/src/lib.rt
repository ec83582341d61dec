//! Two cue lists that share both fields: whether the second goes beside the first, where their events clash, where the units of
//! both stand, and the frames that carry both. What is seen of these frames is said by laws.
#![tactic(auto)]

pub use crate::clash::{Clash, field_clash};
pub use crate::cue_event::{CueEvent, cue_events};
pub use crate::fault::DualFault;
pub use crate::field::{StartedField, first_field, second_field};
pub use crate::list_lane::{ListLane, first_lane, second_lane};
pub use crate::other_list::{OtherField, other_field};
pub use crate::overlaid_plan::{Dual, dual};
pub use crate::parts::channel_parts;
pub use crate::placed::placed_lane;
pub use crate::placed_units::units_in;
pub use crate::places::{first_places, second_places};
pub use crate::plan::plan_dual;
pub use crate::second_channel::{second_events, second_parts};
pub use crate::second_lanes::SecondLanes;

mod clash;
pub mod clash_laws;
mod cue_event;
mod fault;
mod field;
pub mod frame_laws;
pub mod laws;
mod list_lane;
mod other_list;
mod overlaid_plan;
mod parts;
mod placed;
mod placed_units;
mod places;
mod plan;
mod second_channel;
mod second_lanes;
pub mod shared_laws;
