ghost use Rattle.std.specs.Prelude.{◌<◌};
ghost use Rattle.time_codes.specs.Countings.{day_frames_in};

use cc_base::Rate;
use time_codes::Counting;

/// Where the time codes stand on the way through packets.
#[derive(Clone, Copy)]
pub struct Clock {
    pub(crate) count: Counting,
    // The frame of the day of the packet of captions before, or of frame 0 where there is none.
    pub(crate) last: u32,
    // The rate of the packets of captions before; None where there is none.
    pub(crate) rate: Option<Rate>,
    ghost of_day: { last < day_frames_in count },
}
