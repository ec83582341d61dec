//! The caption windows of DTVCC (CTA-708-E): a window with its cells and its pen, and what each code does to it.
#![tactic(auto)]

mod cells;
pub mod laws;
mod styles;
mod window;

pub use cells::DCell;
pub use styles::{pen_style, window_style};
pub use window::Window;
