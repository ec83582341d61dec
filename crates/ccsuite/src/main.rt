//! The program `ccsuite`. Its stored run decodes ten frames of which the last is cut short: status 6.
#![tactic(auto)]

use ccsuite_cli::start;
use std::process::ExitCode;

fn main(rt: HostRuntime) -> ExitCode {
    start(rt)
}
