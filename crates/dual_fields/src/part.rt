use lanes::FieldChunk;
use line21_author::Unit;

/// A unit with what its cue asks of its place, beside the unit that its cue begins with.
#[derive(Clone, Copy, PartialEq, Eq)]
pub struct Part {
    pub chunk: FieldChunk,
    /// The first unit of its cue.
    pub first: Unit,
    /// Whether the unit is another than that.
    pub later: bool,
}
