ghost use Rattle.std.specs.Prelude.{◌≡◌};
ghost use Rattle.cc_base.specs.Rate.{rate_code};
ghost use Rattle.reported_runs.specs.Reports.{blank, chan_number, limit_number, report_of, report_of_room, with_finding, with_kind, with_misfit, with_place, with_seen, with_which};

use crate::line::text_of;
use cc_base::{LimitOf, Rate, Why};
use command_base::{Place, Status};
use findings::{Finding, Kind45, Misfit, MisfitKind, Which};
use line21_codes::Chan;

/// The bytes of a report's text, of which the last is 0.
pub const TEXT: usize = 160;

/// How a run ended: its status, the numbers that this carries, and its line. A number that the status doesn't carry is 0.
#[repr(C)]
#[derive(Clone, Copy, PartialEq, Eq)]
pub struct Report {
    /// The code of the status, 0 to 13.
    pub status: u32,
    /// The number of the reason, 1 to 46, of Malformed, Rule and Differs.
    pub why: u32,
    /// The limit that is passed, of Limit: 1 bytes, 2 frames, 3 cues, 4 packet, 5 day.
    pub limit: u32,
    /// Why a frame can't be converted, of Misfit: 1 rate, 2 count, 3 one, 4 two, 5 many, 6 changed.
    pub misfit: u32,
    /// The record of a cue list, counted from 1, of Malformed; 0 where a byte is at fault.
    pub rec: u32,
    /// The field of that record, counted from 1.
    pub field: u32,
    /// The cue, counted from 1, of Rule, NoRoom and NoRoomBeside.
    pub cue: u32,
    /// The other cue of a broken rule, counted from 1; 0 where there is none.
    pub other: u32,
    /// The packet, counted from 1, of NoXdsRoom.
    pub packet: u32,
    /// The frame, counted from 0, of Differs and Misfit; the number of frames, of Short.
    pub frame: u32,
    /// The channel, 1 to 4, that shows something else, of Differs and Misfit.
    pub channel: u32,
    /// The service, 1 to 63, that shows something else or whose buffer is full, of Differs and Misfit.
    pub service: u32,
    /// What is wanted, of Differs: a counter, a number of triplets, the code of a rate, or one pair.
    pub expected: u32,
    /// What there is in its place, of Differs and Misfit.
    pub seen: u32,
    /// The byte at fault, counted from 0, of Malformed.
    pub place: u64,
    /// The number of bytes that stand in the output.
    pub written: u64,
    /// How many bytes the whole output has, where it has more than there is room for.
    pub wanted: u64,
    /// Zeros, for fields to come.
    pub reserved: [u64; 7],
    /// The line of the status, and after it zeros: what the program writes to its error output.
    pub text: [u8; TEXT],
}

/// The report of a status, where this many bytes stand in the output.
pub fn report_of(status: Status, written: u64) -> Report
    ensures { result ≡ report_of status written }
{
    let mut report = blank(status, written);
    match status {
        Status::Limit(limit) => report.limit = limit_number(limit),
        Status::Malformed(place, why) => set_place(&mut report, place, why),
        Status::Rule(fault) => {
            report.why = u32::from(fault.why.number());
            report.cue = fault.cue;
            report.other = fault.other.unwrap_or(0);
        }
        Status::NoRoom(cue) => report.cue = cue,
        Status::Differs(finding) => set_finding(&mut report, finding),
        Status::Short(frames) => report.frame = frames,
        Status::NoRoomBeside(cue) => report.cue = cue,
        Status::NoXdsRoom(packet) => report.packet = packet,
        Status::Misfit(misfit) => set_misfit(&mut report, misfit),
        _ => {}
    }
    report
}

/// The report of a run that wrote this many bytes, of which this many had room, and fill the output.
pub fn report_of_room(wanted: u64, written: u64) -> Report
    ensures { result ≡ report_of_room wanted written }
{
    let mut report = report_of(Status::WriteFault, written);
    report.wanted = wanted;
    report
}

// A status's code and line, and no number that it carries.
fn blank(status: Status, written: u64) -> Report
    ensures { result ≡ blank status written }
{
    Report {
        status: u32::from(status.code()),
        why: 0,
        limit: 0,
        misfit: 0,
        rec: 0,
        field: 0,
        cue: 0,
        other: 0,
        packet: 0,
        frame: 0,
        channel: 0,
        service: 0,
        expected: 0,
        seen: 0,
        place: 0,
        written,
        wanted: 0,
        reserved: [0; 7],
        text: text_of(status),
    }
}

fn set_place(report: &mut Report, place: Place, why: Why)
    ensures { report.new ≡ with_place place why report.old }
{
    report.why = u32::from(why.number());
    match place {
        Place::Byte(byte) => report.place = byte,
        Place::Field { rec, field } => {
            report.rec = rec;
            report.field = field;
        }
    }
}

fn set_finding(report: &mut Report, finding: Finding)
    ensures { report.new ≡ with_finding finding report.old }
{
    report.frame = finding.frame;
    report.why = u32::from(finding.kind.why().number());
    set_kind(report, finding.kind);
}

fn set_kind(report: &mut Report, kind: Kind45)
    ensures { report.new ≡ with_kind kind report.old }
{
    match kind {
        Kind45::CounterJump { expected, seen } | Kind45::WrongCount { expected, seen } => {
            set_seen(report, u32::from(expected), u32::from(seen))
        }
        Kind45::WrongRate { expected, seen } => {
            set_seen(report, rate_number(expected), rate_number(seen))
        }
        Kind45::BufferFull(service) => report.service = u32::from(service),
        Kind45::GridDiffers(which) => set_which(report, which),
        Kind45::TwoPairs(seen) => set_seen(report, 1, u32::from(seen)),
        Kind45::EightBits => {}
    }
}

fn set_misfit(report: &mut Report, misfit: Misfit)
    ensures { report.new ≡ with_misfit misfit report.old }
{
    report.frame = misfit.frame;
    match misfit.kind {
        MisfitKind::Rate(code) => set_count(report, 1, u32::from(code)),
        MisfitKind::Count(seen) => set_count(report, 2, u32::from(seen)),
        MisfitKind::One(seen) => set_count(report, 3, u32::from(seen)),
        MisfitKind::Two(seen) => set_count(report, 4, u32::from(seen)),
        MisfitKind::Many(seen) => set_count(report, 5, u32::from(seen)),
        MisfitKind::Changed(which) => {
            report.misfit = 6;
            set_which(report, which);
        }
    }
}

fn set_count(report: &mut Report, misfit: u32, seen: u32)
    ensures { report.new ≡ record report.old { misfit = misfit; seen = seen } }
{
    report.misfit = misfit;
    report.seen = seen;
}

fn set_seen(report: &mut Report, expected: u32, seen: u32)
    ensures { report.new ≡ with_seen expected seen report.old }
{
    report.expected = expected;
    report.seen = seen;
}

fn set_which(report: &mut Report, which: Which)
    ensures { report.new ≡ with_which which report.old }
{
    match which {
        Which::Chan(chan) => report.channel = chan_number(chan),
        Which::Service(service) => report.service = u32::from(service),
    }
}

fn rate_number(rate: Rate) -> u32
    ensures { result ≡ rate_code rate }
{
    u32::from(rate.code())
}

fn chan_number(chan: Chan) -> u32
    ensures { result ≡ chan_number chan }
{
    match chan {
        Chan::Cc1 => 1,
        Chan::Cc2 => 2,
        Chan::Cc3 => 3,
        Chan::Cc4 => 4,
    }
}

fn limit_number(limit: LimitOf) -> u32
    ensures { result ≡ limit_number limit }
{
    match limit {
        LimitOf::Bytes => 1,
        LimitOf::Frames => 2,
        LimitOf::Cues => 3,
        LimitOf::Packet => 4,
        LimitOf::Day => 5,
    }
}
