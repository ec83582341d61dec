/// The cue that a broken alternative of a rule names beside the one that is judged.
#[derive(Clone, Copy, PartialEq, Eq)]
pub enum Against {
    /// None: the alternative speaks of the cue alone.
    Itself,
    /// The former cue.
    Former,
    /// The earlier cue of this number.
    Earlier(u32),
}
