//! The program `ccsuite`, run on words that show what the cue list of its side file authors: status 0.
#![tactic(auto)]

use ccsuite_cli::start;
use std::process::ExitCode;

fn main(rt: HostRuntime) -> ExitCode {
    start(rt)
}
