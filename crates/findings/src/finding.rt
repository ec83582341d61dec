ghost use Rattle.std.specs.Prelude.{◌≡◌};
ghost use Rattle.findings.specs.Findings.{finding_why};

use cc_base::{Rate, Why};
use line21_codes::Chan;

/// What has a grid: a caption channel of line 21, or a service of DTVCC.
#[derive(Clone, Copy, PartialEq, Eq)]
pub enum Which {
    /// A channel of line 21 (CTA-608-E).
    Chan(Chan),
    /// A service of DTVCC, 1 to 63 (CTA-708-E).
    Service(u8),
}

/// What was found at a frame: reasons 40 to 46.
#[derive(Clone, Copy, PartialEq, Eq)]
pub enum Kind45 {
    /// The packet's counter isn't the one before plus 1 modulo 65,536 (SMPTE ST 334-2, cdp_header).
    CounterJump {
        /// The counter that would follow.
        expected: u16,
        /// The packet's counter.
        seen: u16,
    },
    /// The packet hasn't its rate's number of triplets (CTA-708-E, cc_data()).
    WrongCount {
        /// The rate's number of triplets.
        expected: u16,
        /// The packet's number of triplets.
        seen: u16,
    },
    /// The packet's rate is another one than is wanted (SMPTE ST 334-2, cdp_header).
    WrongRate {
        /// The rate that is wanted.
        expected: Rate,
        /// The packet's rate.
        seen: Rate,
    },
    /// The held bytes of this service, 1 to 63, reached 128: its input buffer is full (CTA-708-E).
    BufferFull(u8),
    /// What this channel or service shows isn't what was authored.
    GridDiffers(Which),
    /// The frame has more than one valid field 1 triplet: this many, at least 2, where 1 is wanted (CTA-708-E, cc_data()).
    TwoPairs(u16),
    /// After this many frames an ancillary packet that isn't of captions has a user word that isn't an 8-bit word with its parity bits
    /// (SMPTE ST 291-1), so an MCC file can't carry it.
    EightBits,
}

/// What was found at which frame.
#[derive(Clone, Copy, PartialEq, Eq)]
pub struct Finding {
    /// The frame, counted from 0.
    pub frame: u32,
    /// What was found.
    pub kind: Kind45,
}

impl Kind45 {
    /// The reason of the same name.
    pub fn why(self) -> Why
        ensures { result ≡ finding_why self }
    {
        match self {
            Kind45::CounterJump { .. } => Why::CounterJump,
            Kind45::WrongCount { .. } => Why::WrongCount,
            Kind45::WrongRate { .. } => Why::WrongRate,
            Kind45::BufferFull(_) => Why::BufferFull,
            Kind45::GridDiffers(_) => Why::GridDiffers,
            Kind45::TwoPairs(_) => Why::TwoPairs,
            Kind45::EightBits => Why::EightBits,
        }
    }
}
