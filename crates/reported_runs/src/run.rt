ghost use Rattle.std.specs.Prelude.{Some};
ghost use Rattle.ccsuite_cli.specs.Command.{IsRunnable};
ghost use Rattle.reported_runs.specs.Memory.{RunsInMemory, Stands};

use crate::output::WholeOutput;
use crate::report::{Report, report_of, report_of_room};
use caption_streams::SliceSource;
use ccsuite_cli::{Command, perform};
use command_base::Status;
use std::alloc::Global;

/// Runs a command. Its input is `input`, and its side file is `side`, of which a command that reads none makes nothing. What it writes
/// stands at the front of `out`, whose other bytes are as they were.
///
/// What the command answers on its input, its side file and an output that takes all holds of these. Where what it wrote has more bytes
/// than `out`, a front of it fills `out`, and the answer is WriteFault, with the number of bytes that are wanted. Memory is also the
/// answer where none is found for what is written, and then `out` is as it was.
pub fn run_in_memory(
    alloc: Global,
    command: Command,
    input: &[u8],
    side: &[u8],
    out: &mut [u8],
) -> Report
    requires { IsRunnable (Some command) }
    ensures { RunsInMemory command input.now side.now out.old out.new result }
{
    let mut source = SliceSource::new(input);
    let mut file = SliceSource::new(side);
    let Ok(mut output) = WholeOutput::new(alloc, out.len()) else {
        return report_of(Status::Memory, 0);
    };
    let status = perform(alloc, command, &mut source, &mut file, &mut output);
    finish(status, output.bytes(), out)
}

// Ends a run whose status this is, and which wrote these bytes.
fn finish(status: Status, bytes: &[u8], out: &mut [u8]) -> Report
    ensures { Stands status bytes.now out.old out.new result }
{
    if matches!(status, Status::WriteFault) {
        return report_of(Status::Memory, 0);
    }
    let room = out.len();
    if room < bytes.len() {
        out.copy_from_slice(&bytes[..room]);
        return report_of_room(bytes.len() as u64, room as u64);
    }
    out[..bytes.len()].copy_from_slice(bytes);
    report_of(status, bytes.len() as u64)
}
