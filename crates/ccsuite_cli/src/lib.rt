//! The program `ccsuite`: its command lines, and the status with which a run of each ends.
#![tactic(auto)]

pub use crate::command::{Command, side_of};
pub use crate::program::{perform, run};
pub use crate::standard_streams::start;
pub use crate::status_line::put_status;
pub use crate::unread_words::run_without_words;
pub use command_base::{Place, SideFile, Status};
pub use load_commands::MOST_LOAD;

mod command;
mod finding_line;
pub mod laws;
mod misfit_line;
mod program;
mod standard_streams;
mod status_line;
mod unread_words;
