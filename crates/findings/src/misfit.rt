ghost use Rattle.std.specs.Prelude.{◌≡◌};
ghost use Rattle.findings.specs.Misfits.{misfit_name};

use crate::finding::Which;

/// Why a frame at 29.97 has no two frames at 59.94 that carry and show the same.
#[derive(Clone, Copy, PartialEq, Eq)]
pub enum MisfitKind {
    /// Its rate is another one, of this code, 1 to 8 (SMPTE ST 334-2, cdp_frame_rate).
    Rate(u8),
    /// It hasn't 20 triplets, but this many (CTA-708-E, cc_data()).
    Count(u16),
    /// It has more than one valid field 1 triplet: this many.
    One(u16),
    /// It has more than one valid field 2 triplet: this many.
    Two(u16),
    /// It has more than 18 valid triplets of channel packets: this many.
    Many(u16),
    /// This channel or service would show something else.
    Changed(Which),
}

/// Which frame can't be converted, and why.
#[derive(Clone, Copy, PartialEq, Eq)]
pub struct Misfit {
    /// The frame, counted from 0.
    pub frame: u32,
    /// Why it can't.
    pub kind: MisfitKind,
}

impl MisfitKind {
    /// The misfit's name, as it is printed.
    pub fn name(self) -> &'static str
        ensures { result.now ≡ misfit_name self }
    {
        match self {
            MisfitKind::Rate(_) => "Rate",
            MisfitKind::Count(_) => "Count",
            MisfitKind::One(_) => "One",
            MisfitKind::Two(_) => "Two",
            MisfitKind::Many(_) => "Many",
            MisfitKind::Changed(_) => "Changed",
        }
    }
}
