//! What every layer of the caption suite stands on: sources and sinks of bytes with counts of their faults, and readers that
//! can be fed in any pieces. The reasons of refusals and their places, the limits, and the frame rates of caption
//! distribution packets are here too.
#![tactic(auto)]

pub use crate::adapters::{ReaderSource, WriterSink};
pub use crate::feeding::feed_pieces;
pub use crate::limit_of::LimitOf;
pub use crate::machine::{Fed, Machine};
pub use crate::memory_sink::MemorySink;
pub use crate::memory_source::{MemorySource, SteadySource};
pub use crate::pieces::put_pieces;
pub use crate::rate::Rate;
pub use crate::refusal::Refusal;
pub use crate::resume::{Resume, Upward};
pub use crate::step::Step;
pub use crate::streams::{Put, Sink, Source, Took};
pub use crate::whole::{ReadError, read_whole};
pub use crate::why::Why;

mod adapters;
mod copies;
mod feeding;
pub mod laws;
mod limit_of;
mod machine;
mod memory_sink;
mod memory_source;
mod pieces;
mod rate;
mod refusal;
mod resume;
mod step;
mod streams;
mod whole;
mod why;
