ghost use Rattle.std.specs.Prelude.{◌≡◌, ◌<◌, ℕ, List, [], IfOk, length};
ghost use Rattle.cdp_packets.specs.Packets.{Frame};
ghost use Rattle.time_codes.specs.Countings.{day_frames_in};
ghost use Rattle.mcc_commands.specs.Exported.{counts_rate, expected_rate};
ghost use Rattle.mcc_commands.specs.ExportSteps.{IsNext, Passes, StandsBehind, TellsRate, clock_count, clock_last, clock_rate};
ghost use Rattle.mcc_commands.specs.declared.start.Start.{Start as StartOf};

use crate::clock::Clock;
use crate::export_stop::MccStop;
use crate::start::Start;
use cc_base::Rate;
use findings::{Finding, Kind45};
use time_codes::Counting;

impl Clock {
    /// Before the first packet of a file that starts so.
    pub(crate) fn new(start: Start) -> Clock
        requires { start.first < day_frames_in start.count }
        ensures { StandsBehind start [] result }
    {
        Clock {
            count: start.count,
            last: start.first,
            rate: None,
        }
    }

    /// How the time codes count.
    pub(crate) fn count(&self) -> Counting
        ensures { result ≡ clock_count self.now }
    {
        self.count
    }

    /// The frame of the day of a packet that isn't of captions.
    pub(crate) fn beside(&self) -> u32
        ensures is { result ≡ clock_last self.now }
        ensures of_day { result < day_frames_in (clock_count self.now) }
    {
        self.last
    }

    /// Passes a packet of captions of this rate, after this many: the frame of the day at which it stands.
    pub(crate) fn pass(&mut self, seen: Rate, number: u32) -> Result<u32, MccStop>
        ensures passes { (start : StartOf) (frames : List Frame)
            → StandsBehind start frames self.old → number ≡ length frames
            → Passes start frames seen self.new result }
        ensures of_day { IfOk result (λ frame. frame < day_frames_in (clock_count self.new)) }
    {
        if let Some(expected) = wrong_rate(self.count, self.rate, seen) {
            let kind = Kind45::WrongRate { expected, seen };
            return Err(MccStop::Found(Finding {
                frame: number,
                kind,
            }));
        }
        let last = self.next();
        if last >= self.count.day_frames() {
            return Err(MccStop::Day);
        }
        let rate = Some(seen);
        *self = Clock {
            count: self.count,
            last,
            rate,
        };
        Ok(last)
    }

    /// The frame after the one of the packet of captions before, or the one of frame 0.
    fn next(&self) -> u32
        ensures { IsNext (clock_rate self.now) (clock_last self.now) result }
    {
        match self.rate {
            Some(_) => self.last + 1,
            None => self.last,
        }
    }
}

/// The rate that is expected in place of the one that is seen; None where the rate is right. It is the count's, where this can't count
/// the one that is seen, and else the rate of the packets of captions before.
fn wrong_rate(count: Counting, before: Option<Rate>, seen: Rate) -> Option<Rate>
    ensures { TellsRate count before seen result }
{
    if !counts_rate(count, seen) {
        return Some(expected_rate(count));
    }
    match before {
        Some(first) if first.code() != seen.code() => Some(first),
        _ => None,
    }
}

/// The rate whose frames time codes of a count are expected to count.
fn expected_rate(count: Counting) -> Rate
    ensures { result ≡ expected_rate count }
{
    match count {
        Counting::F24 => Rate::F23976,
        Counting::F25 => Rate::F25,
        Counting::F30 | Counting::F30Drop => Rate::F2997,
        Counting::F50 => Rate::F50,
        Counting::F60 | Counting::F60Drop => Rate::F5994,
    }
}

/// Whether they can count frames of this rate: the expected one, or without drop frame the one of 1,001 frames to its 1,000.
fn counts_rate(count: Counting, rate: Rate) -> bool
    ensures { result ≡ counts_rate count rate }
{
    match count {
        Counting::F24 => matches!(rate, Rate::F23976 | Rate::F24),
        Counting::F25 => matches!(rate, Rate::F25),
        Counting::F30 => matches!(rate, Rate::F2997 | Rate::F30),
        Counting::F30Drop => matches!(rate, Rate::F2997),
        Counting::F50 => matches!(rate, Rate::F50),
        Counting::F60 => matches!(rate, Rate::F5994 | Rate::F60),
        Counting::F60Drop => matches!(rate, Rate::F5994),
    }
}
