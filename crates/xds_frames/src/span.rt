/// The time in which a cue is loaded: from the frame of its LOAD up to its SHOW's.
#[derive(Clone, Copy)]
pub struct Span {
    /// The first frame.
    pub load: u32,
    /// The frame after the last one.
    pub show: u32,
}
