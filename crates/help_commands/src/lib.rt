//! The commands `help` and `version`: pages on the program and its commands, and its version.
#![tactic(auto)]

pub use crate::help::{run_help, run_version};
pub use crate::page::{Page, page_of};

mod help;
pub mod page;
pub mod texts;
