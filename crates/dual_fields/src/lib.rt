//! A field that two cue lists share, each on a channel of its own: their lanes, placed one beside the other, and what a receiver
//! shows of both. If slots of the other lane lie before a unit, the first unit of its cue stands once more after them.
#![tactic(auto)]

pub use crate::fill::place_all;
pub use crate::part::Part;
pub use crate::place::{Place, first_place};
pub use crate::slot_use::SlotUse;
pub use crate::tables::{table, table_beside};

pub mod fill;
pub mod laws;
pub mod part;
pub mod place;
pub mod resumed_laws;
pub mod slot_use;
pub mod tables;
