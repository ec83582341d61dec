use cc_base::Why;
use std::alloc::AllocError;
use thiserror::Error;

/// Why a list of packets can't be read.
#[derive(Debug, Drop, Error)]
pub enum XdsFault {
    /// Memory ran out.
    #[error("out of memory")]
    Memory(AllocError),
    /// A record is out of form: its number and its field's number, both from 1, and the reason.
    #[error("malformed at record {rec} field {field}")]
    Malformed { rec: u32, field: u32, why: Why },
}
