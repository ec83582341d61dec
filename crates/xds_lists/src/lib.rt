//! Lists of packets of extended data: their form, and how their packets are sent in the free slots of field 2.
#![tactic(auto)]

pub use crate::fault::XdsFault;
pub use crate::list::XdsList;
pub use crate::listed::XdsListed;
pub use crate::reading::parse_xds;
pub use crate::writer::XdsWriter;

pub mod fault;
mod head;
pub mod laws;
pub mod list;
pub mod listed;
mod reading;
mod record;
mod sending;
pub mod writer;
mod writing;
