use cc_base::Rate;

/// The version of a cue list's records.
#[derive(Clone, Copy, PartialEq, Eq)]
pub enum Version {
    /// Without the records of version 2.
    One,
    /// With records for a window's own attributes and for a run's own colours. Lists are written so.
    Two,
}

/// The head of a cue list, which is its first record.
#[derive(Clone, Copy, PartialEq, Eq)]
pub struct Head {
    /// The version of the records.
    pub version: Version,
    /// The frame rate, 29.97, 30, 59.94 or 60 frames a second.
    pub rate: Rate,
    /// The number of frames, 1 to 1,000,000.
    pub frames: u32,
}
