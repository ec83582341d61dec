use line21_author::Unit;

/// A unit with what its cue asks of its place. Slots are counted from 0.
#[derive(Clone, Copy, PartialEq, Eq)]
pub struct FieldChunk {
    pub unit: Unit,
    /// The slot before which the unit doesn't stand.
    pub load: u32,
    /// The slot before which the unit has ended.
    pub until: u32,
    /// The number of its cue, counted from 1.
    pub cue: u32,
}
