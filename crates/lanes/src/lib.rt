//! Lanes: where the units of cues stand, in file order. In a field's lane each has slots (CTA-608-E, 47 CFR 79.101). In a service's
//! it has bytes of a frame, within the share and the room of delays (CTA-708-E). Either has an earliest placement, found by first
//! fit, or a first cue without room.
#![tactic(auto)]

pub use crate::budget::{Budget, MOST_LOADS};
pub use crate::chunk::FieldChunk;
pub use crate::chunk_list::ChunkList;
pub use crate::field_cues::channel_chunks;
pub use crate::placed_field::{FieldLane, PlacedField};
pub use crate::placed_service::{PlacedService, ServiceLane};
pub use crate::placed_unit::PlacedUnit;
pub use crate::planning::PlanFault;
pub use crate::service_cues::service_chunks;
pub use dtvcc_author::captions;
pub use line21_author::{Cue, CueList, LAST_SERVICE, events};

mod batch;
mod budget;
pub mod budget_laws;
pub mod chunk;
mod chunk_list;
pub mod cue_load;
mod field_cues;
pub mod field_cursor;
mod field_front;
pub mod field_laws;
pub mod placed_field;
pub mod placed_service;
pub mod placed_unit;
mod placing;
mod planning;
mod service_cues;
mod service_cursor;
mod service_front;
pub mod service_laws;
