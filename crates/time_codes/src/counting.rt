ghost use Rattle.std.specs.Prelude.{◌≡◌, ◌≤◌, ◌<◌, ◌/◌, ◌%◌};

use crate::time_code::TimeCode;

/// How time codes count the frames of a day: at how many frames a second, and whether drop frame leaves numbers out (SMPTE
/// ST 12-1; ST 12-3 above 30).
#[derive(Clone, Copy, PartialEq, Eq)]
pub enum Counting {
    /// 24 frames a second.
    F24,
    /// 25 frames a second.
    F25,
    /// 30 frames a second.
    F30,
    /// 30 frames a second with drop frame: frames 00 and 01 of each minute are left out, except for minutes 00, 10, 20, 30, 40
    /// and 50.
    F30Drop,
    /// 50 frames a second.
    F50,
    /// 60 frames a second.
    F60,
    /// 60 frames a second with drop frame: frames 00 to 03 of these minutes are left out.
    F60Drop,
}

impl Counting {
    ghost use Rattle.std.specs.Prelude.{MatchOption};
    ghost use Rattle.time_codes.specs.declared.counting.Counting.{Counting as Count};
    ghost use Rattle.time_codes.specs.Countings.{counting_at_30, counting_text, day_frames_in, frames_a_second, has_drop_frame, is_left_out_in, is_time_code_in, number_in, numbers_left_out, place_in};

    /// The count at 30 frames a second, with drop frame or without.
    pub fn at_30(drop_frame: bool) -> Counting
        ensures { result ≡ counting_at_30 drop_frame }
    {
        if drop_frame {
            Counting::F30Drop
        } else {
            Counting::F30
        }
    }

    /// The count that MCC files name by a text: `24`, `25`, `30`, `30DF`, `50`, `60` or `60DF`; None exactly where the text is
    /// another one.
    pub fn read(text: &[u8]) -> Option<Counting>
        ensures { MatchOption result ((count : Count) → text.now ≡ counting_text count → ⊥)
            (λ count. text.now ≡ counting_text count) }
    {
        match *text {
            [b'2', b'4'] => Some(Counting::F24),
            [b'2', b'5'] => Some(Counting::F25),
            [b'3', b'0'] => Some(Counting::F30),
            [b'3', b'0', b'D', b'F'] => Some(Counting::F30Drop),
            [b'5', b'0'] => Some(Counting::F50),
            [b'6', b'0'] => Some(Counting::F60),
            [b'6', b'0', b'D', b'F'] => Some(Counting::F60Drop),
            _ => None,
        }
    }

    /// Its text in MCC files.
    pub fn text(self) -> &'static [u8]
        ensures { result.now ≡ counting_text self }
    {
        match self {
            Counting::F24 => b"24",
            Counting::F25 => b"25",
            Counting::F30 => b"30",
            Counting::F30Drop => b"30DF",
            Counting::F50 => b"50",
            Counting::F60 => b"60",
            Counting::F60Drop => b"60DF",
        }
    }

    /// How many frames a second has.
    pub fn frames_a_second(self) -> u8
        ensures frames { result ≡ frames_a_second self }
        ensures most { result ≤ 60 }
    {
        match self {
            Counting::F24 => 24,
            Counting::F25 => 25,
            Counting::F30 | Counting::F30Drop => 30,
            Counting::F50 => 50,
            Counting::F60 | Counting::F60Drop => 60,
        }
    }

    /// Whether it counts with drop frame.
    pub fn has_drop_frame(self) -> bool
        ensures { result ≡ has_drop_frame self }
    {
        matches!(self, Counting::F30Drop | Counting::F60Drop)
    }

    /// How many frames a day has.
    pub fn day_frames(self) -> u32
        ensures { result ≡ day_frames_in self }
    {
        match self {
            Counting::F24 => 2_073_600,
            Counting::F25 => 2_160_000,
            Counting::F30 => 2_592_000,
            Counting::F30Drop => 2_589_408,
            Counting::F50 => 4_320_000,
            Counting::F60 => 5_184_000,
            Counting::F60Drop => 5_178_816,
        }
    }

    // How many frame numbers are left out at the start of a minute where some are.
    fn numbers_left_out(self) -> u8
        ensures { result ≡ numbers_left_out self }
    {
        match self {
            Counting::F30Drop => 2,
            Counting::F60Drop => 4,
            _ => 0,
        }
    }

    // Whether drop frame leaves a time code out.
    pub(crate) fn leaves_out(self, t: TimeCode) -> bool
        ensures { result ≡ is_left_out_in self t }
    {
        self.has_drop_frame() && t.s == 0 && t.f < self.numbers_left_out() && t.m % 10 != 0
    }

    /// Whether a frame of the day has the time code, whatever mark its text has.
    pub fn has(self, t: TimeCode) -> bool
        ensures { result ≡ is_time_code_in self t }
    {
        t.h < 24 && t.m < 60 && t.s < 60 && t.f < self.frames_a_second() && !self.leaves_out(t)
    }

    /// The frame of a time code that the day has, where this many minutes begin before its own.
    pub(crate) fn number(self, minutes: u32, s: u8, f: u8) -> u32
        requires minutes { minutes < 1440 }
        requires seconds { s < 60 }
        ensures { result ≡ number_in self minutes s f }
    {
        let s = u32::from(s);
        let f = u32::from(f);
        let short = minutes - minutes / 10;
        match self {
            Counting::F24 => 1440 * minutes + 24 * s + f,
            Counting::F25 => 1500 * minutes + 25 * s + f,
            Counting::F30 => 1800 * minutes + 30 * s + f,
            Counting::F30Drop => 1800 * minutes + 30 * s + f - 2 * short,
            Counting::F50 => 3000 * minutes + 50 * s + f,
            Counting::F60 => 3600 * minutes + 60 * s + f,
            Counting::F60Drop => 3600 * minutes + 60 * s + f - 4 * short,
        }
    }

    /// The place of a frame of the day in the count that leaves none out, as seconds of the day and frames.
    pub(crate) fn seconds_and_frames(self, frame: u32) -> (u32, u8)
        requires { frame < day_frames_in self }
        ensures seconds { result.0 ≡ place_in self frame / frames_a_second self }
        ensures frames { result.1 ≡ place_in self frame % frames_a_second self }
        ensures day { result.0 < 86400 }
    {
        match self {
            Counting::F24 => (frame / 24, (frame % 24) as u8),
            Counting::F25 => (frame / 25, (frame % 25) as u8),
            Counting::F30 => (frame / 30, (frame % 30) as u8),
            Counting::F30Drop => {
                let place = frame
                    + 18 * (frame / 17982)
                    + 2 * ((frame % 17982).saturating_sub(2) / 1798);
                (place / 30, (place % 30) as u8)
            }
            Counting::F50 => (frame / 50, (frame % 50) as u8),
            Counting::F60 => (frame / 60, (frame % 60) as u8),
            Counting::F60Drop => {
                let place = frame
                    + 36 * (frame / 35964)
                    + 4 * ((frame % 35964).saturating_sub(4) / 3596);
                (place / 60, (place % 60) as u8)
            }
        }
    }
}
