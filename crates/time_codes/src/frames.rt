ghost use Rattle.std.specs.Prelude.{◌≡◌, ◌<◌};
ghost use Rattle.time_codes.specs.Countings.{day_frames_in, frame_in, time_in};
ghost use Rattle.time_codes.specs.Frames.{frame_of, time_at};
ghost use Rattle.time_codes.specs.TimeCodes.{day_frames};

use crate::counting::Counting;
use crate::time_code::TimeCode;
use cc_base::Why;

/// The frame of the day that a time code names, counted from 0 at 00:00:00:00 (SMPTE ST 12-1): how many time codes of the day
/// stand before it. The count says whether there is drop frame, whatever the time code's mark.
///
/// NoSuchTime comes exactly where no frame has the time code: hours above 23, minutes or seconds above 59, frames not below the
/// number in a second, or a time code that drop frame leaves out.
pub fn frame_in(count: Counting, t: TimeCode) -> Result<u32, Why>
    ensures { result ≡ frame_in count t }
{
    if !count.has(t) {
        return Err(Why::NoSuchTime);
    }
    let minutes = 60 * u32::from(t.h) + u32::from(t.m);
    Ok(count.number(minutes, t.s, t.f))
}

/// The time code of a frame of the day, marked as one of drop frame where the count has drop frame.
pub fn time_in(count: Counting, frame: u32) -> TimeCode
    requires { frame < day_frames_in count }
    ensures { result ≡ time_in count frame }
{
    let (seconds, f) = count.seconds_and_frames(frame);
    TimeCode {
        h: (seconds / 3600) as u8,
        m: (seconds / 60 % 60) as u8,
        s: (seconds % 60) as u8,
        f,
        drop_frame: count.has_drop_frame(),
    }
}

/// The frame of the day that a time code at 30 frames a second names, with drop frame where its mark says so: `frame_in` of that
/// count.
///
/// NoSuchTime comes exactly where no frame has the time code: hours above 23, minutes or seconds above 59, frames above 29, or one
/// that drop frame leaves out.
pub fn frame_of(t: TimeCode) -> Result<u32, Why>
    ensures { result ≡ frame_of t }
{
    frame_in(Counting::at_30(t.drop_frame), t)
}

/// The time code of a frame of the day at 30 frames a second, which is below 2,592,000, or below 2,589,408 with drop frame.
pub fn time_of(frame: u32, drop_frame: bool) -> TimeCode
    requires { frame < day_frames drop_frame }
    ensures { result ≡ time_at frame drop_frame }
{
    time_in(Counting::at_30(drop_frame), frame)
}
