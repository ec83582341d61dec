//! The library for C: whole runs over memory, and builders, receivers and verifiers that live from one call to the next. `ccsuite.h` says
//! what each call does, and what its caller owes.
#![tactic(auto)]

pub use crate::about::{ccsuite_reason_of, ccsuite_version};
pub use crate::builder::{
    ccsuite_builder_close, ccsuite_builder_next, ccsuite_builder_next_cc_data, ccsuite_builder_open,
};
pub use crate::calls::{
    StartTime, ccsuite_build, ccsuite_conceal, ccsuite_convert, ccsuite_cues, ccsuite_decode,
    ccsuite_dual, ccsuite_export, ccsuite_export_mcc, ccsuite_import, ccsuite_import_mcc,
    ccsuite_insert, ccsuite_load, ccsuite_pairs, ccsuite_show, ccsuite_verify, ccsuite_xds,
    ccsuite_xds_show,
};
pub use crate::cells::{Edge, Shade, TextCell, WindowCell, WindowSeen};
pub use crate::handle::Handle;
pub use crate::packets::{
    PacketSeen, ccsuite_cc_data_from_words, ccsuite_cdp_from_words, ccsuite_words_from_cc_data,
    ccsuite_words_from_cdp,
};
pub use crate::receiver::{
    ChangedSeen, FrameSeen, ccsuite_receiver_cell, ccsuite_receiver_changed,
    ccsuite_receiver_changes, ccsuite_receiver_close, ccsuite_receiver_feed,
    ccsuite_receiver_feed_cc_data, ccsuite_receiver_finish, ccsuite_receiver_frame,
    ccsuite_receiver_grid, ccsuite_receiver_open, ccsuite_receiver_screens,
    ccsuite_receiver_window, ccsuite_receiver_window_cell, ccsuite_receiver_window_grid,
};
pub use crate::told::FedBytes;
pub use crate::verifier::{
    ccsuite_verifier_close, ccsuite_verifier_feed, ccsuite_verifier_open, ccsuite_verifier_verdict,
};

mod about;
mod builder;
mod calls;
mod cells;
mod grids;
mod handle;
mod loose;
mod packets;
mod pointer;
mod receiver;
mod state;
#[cfg(test)]
mod tests;
mod told;
mod verifier;
