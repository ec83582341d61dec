use line21_author::Unit;

/// A unit in its place in a lane.
#[derive(Clone, Copy, PartialEq, Eq)]
pub struct PlacedUnit {
    pub unit: Unit,
    /// The slot in which the unit begins, counted from 0.
    pub slot: u32,
}
