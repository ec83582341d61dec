ghost use Rattle.std.specs.Prelude.{◌≡◌};

use crate::counting::Counting;

/// A time code: hours, minutes, seconds and frames of a day (SMPTE ST 12-1), which is counted at 30 frames a second or as a
/// `Counting` says.
///
/// It has any eight-bit values. A time code of the day at 30 frames a second has hours below 24, minutes and seconds below 60, frames
/// below 30, and isn't one that drop frame leaves out.
#[derive(Clone, Copy, PartialEq, Eq)]
pub struct TimeCode {
    /// Hours.
    pub h: u8,
    /// Minutes.
    pub m: u8,
    /// Seconds.
    pub s: u8,
    /// Frames.
    pub f: u8,
    /// Whether it counts with drop frame: frames 00 and 01 of each minute are left out, except for minutes 00, 10, 20, 30, 40
    /// and 50.
    pub drop_frame: bool,
}

impl TimeCode {
    ghost use Rattle.time_codes.specs.TimeCodes.{is_left_out, is_time_code};

    /// Whether drop frame leaves it out at 30 frames a second: the first two frames of each minute, except for minutes 00, 10, 20,
    /// 30, 40 and 50 (SMPTE ST 12-1, drop frame compensation).
    pub fn is_left_out(self) -> bool
        ensures { result ≡ is_left_out self }
    {
        Counting::at_30(self.drop_frame).leaves_out(self)
    }

    /// Whether a frame of the day at 30 frames a second has it.
    pub fn is_of_day(self) -> bool
        ensures { result ≡ is_time_code self }
    {
        Counting::at_30(self.drop_frame).has(self)
    }
}
