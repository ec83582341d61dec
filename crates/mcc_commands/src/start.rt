use time_codes::Counting;

/// Where the time codes of an MCC file start.
#[derive(Clone, Copy, PartialEq, Eq)]
pub struct Start {
    /// How they count.
    pub count: Counting,
    /// The frame of the day of frame 0.
    pub first: u32,
}
