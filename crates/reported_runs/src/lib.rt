//! Whole runs of the program's commands over the memory of a caller, and reports of how they ended: every number that a status carries,
//! and its line.
#![tactic(auto)]

pub use crate::line::text_of;
pub use crate::reason::{Reason, reason_of, reason_told};
pub use crate::report::{Report, TEXT, report_of};
pub use crate::run::run_in_memory;
pub use ccsuite_cli::{Command, MOST_LOAD};

mod line;
mod output;
mod reason;
mod report;
mod run;
