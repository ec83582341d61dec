use cc_base::Rate;

/// Frames in order, whatever makes them, and their rate.
#[derive(Drop)]
pub struct Programme<F> {
    /// The rate of the frames.
    pub rate: Rate,
    /// The frames, from frame 0 on.
    pub frames: F,
}
