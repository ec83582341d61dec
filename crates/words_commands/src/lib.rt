//! The commands that read words and put what they show: `decode`, `show`, `conceal`, which reads words of which frames are missing, and
//! `xds-show`, which puts packets of extended data. They take, judge and put frame by frame, and gather nothing of the input.
#![tactic(auto)]

pub use crate::conceal::run_conceal;
pub use crate::decode::run_decode;
pub use crate::show::run_show;
pub use crate::xds_show::run_xds_show;

mod changes;
mod conceal;
mod concealing;
mod count;
mod decode;
pub mod laws;
mod packet_lines;
mod screens_at;
mod show;
mod xds_show;
