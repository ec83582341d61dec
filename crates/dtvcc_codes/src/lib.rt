//! The codes of DTVCC, the closed captions of digital television (CTA-708-E): the bytes of a service as characters and
//! commands, and back.
#![tactic(auto)]

mod characters;
mod commands;
pub mod laws;
mod open_command;
mod parameters;
mod pens;
mod reader;
mod reading;
mod windows;
mod writing;

pub use characters::spell_dtv;
pub use commands::Command;
pub use open_command::OpenCommand;
pub use pens::{Fill, PenAttr, PenColors, Rgb};
pub use reader::CommandReader;
pub use windows::{Definition, WinAttr};
pub use writing::write_command;
