ghost use Rattle.std.specs.Prelude.{◌≡◌, ◌≤◌, ◌<◌, ◌⊎◌, [], true, false, IfSome, Some};
ghost use Rattle.reported_runs.specs.Command.TheVariants as command;
ghost use Rattle.command_base.specs.declared.status.Status.TheVariants as status;
ghost use Rattle.reported_runs.specs.LoadList.{most_load};
ghost use Rattle.reported_runs.specs.Memory.{RunsInMemory};
ghost use Rattle.reported_runs.specs.Reports.{report_of};
ghost use Rattle.time_codes.specs.TimeCodes.{is_time_code};
ghost use Rattle.time_codes.specs.declared.counting.Counting.{Counting as Count};
ghost use Rattle.ccsuite_c.specs.Calls.{CountsSo, IsMccStart, counting_at, start_of};

use command_base::Status;
use reported_runs::{Command, MOST_LOAD, Report, report_of, run_in_memory};
use std::alloc::Global;
use time_codes::{Counting, TimeCode, frame_of};

/// The time code of a words file's frame 0.
#[repr(C)]
#[derive(Clone, Copy, PartialEq, Eq)]
pub struct StartTime {
    /// Hours, 0 to 23.
    pub hours: u8,
    /// Minutes, 0 to 59.
    pub minutes: u8,
    /// Seconds, 0 to 59.
    pub seconds: u8,
    /// Frames, 0 to 29, or below another number that a second has.
    pub frames: u8,
    /// Whether it counts with drop frame.
    pub drop_frame: bool,
}

/// Reads a cue list, and writes one line a frame with the pairs of both fields, as the command `pairs`.
#[unsafe(no_mangle)]
pub extern "C" fn ccsuite_pairs(
    alloc: Global,
    list: &[u8],
    out: &mut [u8],
    report: &mut Report,
) -> u32
    ensures ran { RunsInMemory command.Pairs list.now [] out.old out.new report.new }
    ensures status { result ≡ report.new.status }
{
    *report = run_in_memory(alloc, Command::Pairs, list, &[], out);
    report.status
}

/// Reads a cue list, and writes the ancillary packet of each of its frames, as the command `build`.
#[unsafe(no_mangle)]
pub extern "C" fn ccsuite_build(
    alloc: Global,
    list: &[u8],
    out: &mut [u8],
    report: &mut Report,
) -> u32
    ensures ran { RunsInMemory command.Build list.now [] out.old out.new report.new }
    ensures status { result ≡ report.new.status }
{
    *report = run_in_memory(alloc, Command::Build, list, &[], out);
    report.status
}

/// Reads a cue list, and writes it as it is written, as the command `cues`. Its room isn't tried.
#[unsafe(no_mangle)]
pub extern "C" fn ccsuite_cues(
    alloc: Global,
    list: &[u8],
    out: &mut [u8],
    report: &mut Report,
) -> u32
    ensures ran { RunsInMemory command.Cues list.now [] out.old out.new report.new }
    ensures status { result ≡ report.new.status }
{
    *report = run_in_memory(alloc, Command::Cues, list, &[], out);
    report.status
}

/// Reads words, and writes the changed screens of each frame, and then their number, as the command `decode`.
#[unsafe(no_mangle)]
pub extern "C" fn ccsuite_decode(
    alloc: Global,
    words: &[u8],
    out: &mut [u8],
    report: &mut Report,
) -> u32
    ensures ran { RunsInMemory command.Decode words.now [] out.old out.new report.new }
    ensures status { result ≡ report.new.status }
{
    *report = run_in_memory(alloc, Command::Decode, words, &[], out);
    report.status
}

/// Reads words of which frames may be missing, and writes how many are and the changed screens, as the command `conceal`.
#[unsafe(no_mangle)]
pub extern "C" fn ccsuite_conceal(
    alloc: Global,
    words: &[u8],
    out: &mut [u8],
    report: &mut Report,
) -> u32
    ensures ran { RunsInMemory command.Conceal words.now [] out.old out.new report.new }
    ensures status { result ≡ report.new.status }
{
    *report = run_in_memory(alloc, Command::Conceal, words, &[], out);
    report.status
}

/// Reads words, and writes the packets of extended data that end in each frame, as the command `xds-show`.
#[unsafe(no_mangle)]
pub extern "C" fn ccsuite_xds_show(
    alloc: Global,
    words: &[u8],
    out: &mut [u8],
    report: &mut Report,
) -> u32
    ensures ran { RunsInMemory command.XdsShow words.now [] out.old out.new report.new }
    ensures status { result ≡ report.new.status }
{
    *report = run_in_memory(alloc, Command::XdsShow, words, &[], out);
    report.status
}

/// Reads an SCC file, and writes words that carry its pairs, as the command `import` without a time code.
#[unsafe(no_mangle)]
pub extern "C" fn ccsuite_import(
    alloc: Global,
    scc: &[u8],
    out: &mut [u8],
    report: &mut Report,
) -> u32
    ensures ran { RunsInMemory (command.Import None) scc.now [] out.old out.new report.new }
    ensures status { result ≡ report.new.status }
{
    *report = run_in_memory(alloc, Command::Import(None), scc, &[], out);
    report.status
}

/// Reads an MCC file, and writes the words of its packets, as the command `import-mcc`.
#[unsafe(no_mangle)]
pub extern "C" fn ccsuite_import_mcc(
    alloc: Global,
    mcc: &[u8],
    out: &mut [u8],
    report: &mut Report,
) -> u32
    ensures ran { RunsInMemory command.ImportMcc mcc.now [] out.old out.new report.new }
    ensures status { result ≡ report.new.status }
{
    *report = run_in_memory(alloc, Command::ImportMcc, mcc, &[], out);
    report.status
}

/// Reads words, and writes all screens at a frame, counted from 0, as the command `show`.
#[unsafe(no_mangle)]
pub extern "C" fn ccsuite_show(
    alloc: Global,
    words: &[u8],
    frame: u32,
    out: &mut [u8],
    report: &mut Report,
) -> u32
    ensures ran { RunsInMemory (command.Show frame) words.now [] out.old out.new report.new }
    ensures status { result ≡ report.new.status }
{
    *report = run_in_memory(alloc, Command::Show(frame), words, &[], out);
    report.status
}

/// Verifies words against a cue list: it writes `ok` where nothing is found, as the command `verify`.
#[unsafe(no_mangle)]
pub extern "C" fn ccsuite_verify(
    alloc: Global,
    words: &[u8],
    list: &[u8],
    out: &mut [u8],
    report: &mut Report,
) -> u32
    ensures ran { RunsInMemory command.Verify words.now list.now out.old out.new report.new }
    ensures status { result ≡ report.new.status }
{
    *report = run_in_memory(alloc, Command::Verify, words, list, out);
    report.status
}

/// Writes words with a cue list's captions in place of their own, as the command `insert`.
#[unsafe(no_mangle)]
pub extern "C" fn ccsuite_insert(
    alloc: Global,
    words: &[u8],
    list: &[u8],
    out: &mut [u8],
    report: &mut Report,
) -> u32
    ensures ran { RunsInMemory command.Insert words.now list.now out.old out.new report.new }
    ensures status { result ≡ report.new.status }
{
    *report = run_in_memory(alloc, Command::Insert, words, list, out);
    report.status
}

/// Reads words at 29.97 frames a second, and writes words at 59.94 that show the same, as the command `convert`.
#[unsafe(no_mangle)]
pub extern "C" fn ccsuite_convert(
    alloc: Global,
    words: &[u8],
    out: &mut [u8],
    report: &mut Report,
) -> u32
    ensures ran { RunsInMemory command.Convert words.now [] out.old out.new report.new }
    ensures status { result ≡ report.new.status }
{
    *report = run_in_memory(alloc, Command::Convert, words, &[], out);
    report.status
}

/// Reads two cue lists, and writes the ancillary packets of both, the second on CC2 and CC4, as the command `dual`.
#[unsafe(no_mangle)]
pub extern "C" fn ccsuite_dual(
    alloc: Global,
    list: &[u8],
    other: &[u8],
    out: &mut [u8],
    report: &mut Report,
) -> u32
    ensures ran { RunsInMemory command.Dual list.now other.now out.old out.new report.new }
    ensures status { result ≡ report.new.status }
{
    *report = run_in_memory(alloc, Command::Dual, list, other, out);
    report.status
}

/// Reads a cue list and a list of packets of extended data, and writes the ancillary packets of both, as the command `xds`.
#[unsafe(no_mangle)]
pub extern "C" fn ccsuite_xds(
    alloc: Global,
    list: &[u8],
    packets: &[u8],
    out: &mut [u8],
    report: &mut Report,
) -> u32
    ensures ran { RunsInMemory command.Xds list.now packets.now out.old out.new report.new }
    ensures status { result ≡ report.new.status }
{
    *report = run_in_memory(alloc, Command::Xds, list, packets, out);
    report.status
}

/// Tries the whole way of captions on a list of this many, 1 to 10,000, and writes what came of it, as the command `load`. Usage where
/// there is no such list.
#[unsafe(no_mangle)]
pub extern "C" fn ccsuite_load(
    alloc: Global,
    count: u32,
    out: &mut [u8],
    report: &mut Report,
) -> u32
    ensures ran { 1 ≤ count → count ≤ most_load
        → RunsInMemory (command.Load count) [] [] out.old out.new report.new }
    ensures usage { (count < 1) ⊎ (most_load < count)
        → (out.new ≡ out.old) × (report.new ≡ report_of status.Usage 0) }
    ensures status { result ≡ report.new.status }
{
    *report = if 1 <= count && count <= MOST_LOAD {
        run_in_memory(alloc, Command::Load(count), &[], &[], out)
    } else {
        report_of(Status::Usage, 0)
    };
    report.status
}

/// Reads words whose frame 0 has a time code, and writes the SCC file of their field 1, as the command `export`. Usage where no frame of
/// the day has the time code.
#[unsafe(no_mangle)]
pub extern "C" fn ccsuite_export(
    alloc: Global,
    words: &[u8],
    start: &StartTime,
    out: &mut [u8],
    report: &mut Report,
) -> u32
    ensures ran { is_time_code (start_of start.now) ≡ true
        → RunsInMemory (command.Export
        (start_of start.now)) words.now [] out.old out.new report.new }
    ensures usage { is_time_code (start_of start.now) ≡ false
        → (out.new ≡ out.old) × (report.new ≡ report_of status.Usage 0) }
    ensures status { result ≡ report.new.status }
{
    let time = time_of(start);
    *report = match frame_of(time) {
        Ok(_) => run_in_memory(alloc, Command::Export(time), words, &[], out),
        Err(_) => report_of(Status::Usage, 0),
    };
    report.status
}

/// Reads words whose frame 0 has a time code, and writes the MCC file of all their packets, as the command `export-mcc`: `frames` frames
/// a second have time codes, with drop frame where the time code counts so. Usage where time codes don't count so, or no frame of the
/// day has this one.
#[unsafe(no_mangle)]
pub extern "C" fn ccsuite_export_mcc(
    alloc: Global,
    words: &[u8],
    frames: u32,
    start: &StartTime,
    out: &mut [u8],
    report: &mut Report,
) -> u32
    ensures ran { (count : Count) → IsMccStart frames start.now count
        → RunsInMemory (command.ExportMcc count
        (start_of start.now)) words.now [] out.old out.new report.new }
    ensures usage { ((count : Count) → IsMccStart frames start.now count → ⊥)
        → (out.new ≡ out.old) × (report.new ≡ report_of status.Usage 0) }
    ensures status { result ≡ report.new.status }
{
    *report = match mcc_start(frames, start) {
        Some(count) => {
            let command = Command::ExportMcc(count, time_of(start));
            run_in_memory(alloc, command, words, &[], out)
        }
        None => report_of(Status::Usage, 0),
    };
    report.status
}

// How time codes count in an MCC file that has this many frames a second and begins at this time, if one may.
fn mcc_start(frames: u32, start: &StartTime) -> Option<Counting>
    ensures is { IfSome result (IsMccStart frames start.now) }
    ensures one { (count : Count) → IsMccStart frames start.now count → result ≡ Some count }
{
    match counting_at(frames, start.drop_frame) {
        Some(count) if count.has(time_of(start)) => Some(count),
        _ => None,
    }
}

// How time codes count that have this many frames a second, with drop frame or without.
fn counting_at(frames: u32, drop_frame: bool) -> Option<Counting>
    ensures count { result ≡ counting_at frames drop_frame }
    ensures counts { IfSome result (CountsSo frames drop_frame) }
{
    if drop_frame {
        match frames {
            30 => Some(Counting::F30Drop),
            60 => Some(Counting::F60Drop),
            _ => None,
        }
    } else {
        match frames {
            24 => Some(Counting::F24),
            25 => Some(Counting::F25),
            30 => Some(Counting::F30),
            50 => Some(Counting::F50),
            60 => Some(Counting::F60),
            _ => None,
        }
    }
}

// The time code.
fn time_of(start: &StartTime) -> TimeCode
    ensures { result ≡ start_of start.now }
{
    TimeCode {
        h: start.hours,
        m: start.minutes,
        s: start.seconds,
        f: start.frames,
        drop_frame: start.drop_frame,
    }
}
