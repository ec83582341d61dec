//! The texts of what a viewer sees: all that a frame shows, and what changes from frame to frame. They are of the grids of line
//! 21's channels CC1 to CC4 and of the caption windows of DTVCC's 63 services. Rows of cells are written in runs, the longest
//! stretches that are written alike.
#![tactic(auto)]

pub use crate::cell_runs::{begun, runs_of_row, write_front};
pub use crate::cells::WrittenCell;
pub use crate::changed::Changed;
pub use crate::differences::differs;
pub use crate::print::{put_all, put_all_of};
pub use crate::shown::Shown;
pub use crate::window_text::write_window;

pub mod cell_laws;
mod cell_runs;
mod cells;
mod changed;
mod differences;
mod differing;
mod kept;
pub mod laws;
mod print;
mod runs;
mod service;
mod shown;
mod text;
pub mod window_laws;
mod window_runs;
mod window_text;
