//! Tests of DTVCC, of what no row of whole runs shows: calls that no command makes, and sizes. Worked examples of the definitions of
//! the caption channel and its service blocks are laws, functions without a body.
#![tactic(auto)]

mod blocks;
mod caption_channel;
#[cfg(test)]
mod commands;
#[cfg(test)]
mod readers;
#[cfg(test)]
mod services;
#[cfg(test)]
mod windows;
