//! What every command of the program stands on: how a run ends, what clauses see of a run's input and output, an input that is read
//! whole, and the side file of a command line.
#![tactic(auto)]

pub use crate::side_file::SideFile;
pub use crate::status::{Place, Status};
pub use crate::whole_input::read_input;

mod side_file;
mod status;
mod whole_input;
