use cc_base::Rate;

/// What all services get of the frames.
#[derive(Clone, Copy, PartialEq, Eq)]
pub struct Clock {
    /// The frames so far, the present one counted.
    pub ticks: u64,
    /// The rate of the present frame.
    pub rate: Rate,
}
