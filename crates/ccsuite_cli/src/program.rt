ghost use Rattle.std.specs.Prelude.{◌≡◌, Some, false, map, string_bytes};
ghost use Rattle.ccsuite_cli.specs.Answer.{Answer, IsUntouched};
ghost use Rattle.ccsuite_cli.specs.Command.{IsRunnable, command_of, has_side_file};
ghost use Rattle.command_base.specs.Ends.{ends};
ghost use Rattle.ccsuite_cli.specs.StatusLine.{PutsLine};
ghost use Rattle.command_base.specs.SideEnds.{side_ends};

use crate::command::{Command, read_command};
use crate::status_line::put_status;
use cc_base::{Sink, Source};
use command_base::Status;
use convert_commands::run_convert;
use dual_commands::run_dual;
use fit_commands::{run_build, run_cues, run_fit, run_fit_beside, run_pairs};
use help_commands::{run_help, run_version};
use insert_commands::run_insert;
use load_commands::run_load;
use mcc_commands::{run_export_mcc, run_import_mcc};
use scc_commands::{run_export, run_import};
use std::alloc::Global;
use verify_commands::run_verify;
use words_commands::{run_conceal, run_decode, run_show, run_xds_show};
use xds_commands::run_xds;

/// Runs the command of the words after the program's name: reads `input`, puts to `out`, and ends with a status, whose
/// one line is put to `err`. `side` is the file that a command names; a command that names none leaves it.
pub fn run<M: Source, S: Source, O: Sink, E: Sink>(
    alloc: Global,
    words: &[String],
    input: &mut M,
    side: &mut S,
    out: &mut O,
    err: &mut E,
) -> Status
    ensures answer { Answer (command_of (map string_bytes words.now))
        (side_ends (S.left side.old) (S.faults side.old))
        (side_ends (S.left side.new) (S.faults side.new))
        (ends (M.left input.old) (M.faults input.old) (O.written out.old) (O.faults out.old))
        (ends (M.left input.new) (M.faults input.new) (O.written out.new)
        (O.faults out.new)) result }
    ensures untouched { IsUntouched (command_of (map string_bytes words.now))
        (side_ends (S.left side.old) (S.faults side.old))
        (ends (M.left input.old) (M.faults input.old) (O.written out.old) (O.faults out.old))
        (ends (M.left input.new) (M.faults input.new) (O.written out.new)
        (O.faults out.new)) result }
    ensures side { has_side_file (command_of (map string_bytes words.now)) ≡ false
        → side.new ≡ side.old }
    ensures line { PutsLine (E.written err.old) (E.written err.new) (E.faults err.old)
        (E.faults err.new) result }
{
    let status = obey(alloc, read_command(words), input, side, out);
    let _ = put_status(status, err);
    status
}

/// Runs a command; words that are none are Usage.
fn obey<M: Source, S: Source, O: Sink>(
    alloc: Global,
    command: Option<Command>,
    input: &mut M,
    side: &mut S,
    out: &mut O,
) -> Status
    requires { IsRunnable command }
    ensures answer { Answer command
        (side_ends (S.left side.old) (S.faults side.old))
        (side_ends (S.left side.new) (S.faults side.new))
        (ends (M.left input.old) (M.faults input.old) (O.written out.old) (O.faults out.old))
        (ends (M.left input.new) (M.faults input.new) (O.written out.new)
        (O.faults out.new)) result }
    ensures untouched { IsUntouched command
        (side_ends (S.left side.old) (S.faults side.old))
        (ends (M.left input.old) (M.faults input.old) (O.written out.old) (O.faults out.old))
        (ends (M.left input.new) (M.faults input.new) (O.written out.new)
        (O.faults out.new)) result }
    ensures side { has_side_file command ≡ false → side.new ≡ side.old }
{
    match command {
        None => Status::Usage,
        Some(command) => perform(alloc, command, input, side, out),
    }
}

/// Runs a command. One that names no side file leaves `side`.
pub fn perform<M: Source, S: Source, O: Sink>(
    alloc: Global,
    command: Command,
    input: &mut M,
    side: &mut S,
    out: &mut O,
) -> Status
    requires { IsRunnable (Some command) }
    ensures answer { Answer (Some command)
        (side_ends (S.left side.old) (S.faults side.old))
        (side_ends (S.left side.new) (S.faults side.new))
        (ends (M.left input.old) (M.faults input.old) (O.written out.old) (O.faults out.old))
        (ends (M.left input.new) (M.faults input.new) (O.written out.new)
        (O.faults out.new)) result }
    ensures untouched { IsUntouched (Some command)
        (side_ends (S.left side.old) (S.faults side.old))
        (ends (M.left input.old) (M.faults input.old) (O.written out.old) (O.faults out.old))
        (ends (M.left input.new) (M.faults input.new) (O.written out.new)
        (O.faults out.new)) result }
    ensures side { has_side_file (Some command) ≡ false → side.new ≡ side.old }
{
    match command {
        Command::Pairs => run_pairs(alloc, input, out),
        Command::Build => run_build(alloc, input, out),
        Command::Cues => run_cues(alloc, input, out),
        Command::Decode => run_decode(alloc, input, out),
        Command::Show(frame) => run_show(alloc, frame, input, out),
        Command::Verify => run_verify(alloc, input, side, out),
        Command::Insert => run_insert(alloc, input, side, out),
        Command::Import(time) => run_import(alloc, time, input, out),
        Command::Export(time) => run_export(alloc, time, input, out),
        Command::Load(count) => run_load(alloc, count, out),
        Command::Dual => run_dual(alloc, input, side, out),
        Command::Xds => run_xds(alloc, input, side, out),
        Command::XdsShow => run_xds_show(alloc, input, out),
        Command::Conceal => run_conceal(alloc, input, out),
        Command::Convert => run_convert(alloc, input, out),
        Command::ImportMcc => run_import_mcc(alloc, input, out),
        Command::ExportMcc(count, time) => run_export_mcc(alloc, count, time, input, out),
        Command::Fit(late) => run_fit(alloc, late, input, out),
        Command::FitBeside(late) => run_fit_beside(alloc, late, input, side, out),
        Command::Help(page) => run_help(page, out),
        Command::Version => run_version(out),
    }
}
