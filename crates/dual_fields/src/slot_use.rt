/// What a slot of a field is for a lane.
#[derive(Clone, Copy, PartialEq, Eq)]
pub enum SlotUse {
    /// A unit of the lane may stand there.
    Free,
    /// An event of the lane's own list holds it.
    Own,
    /// It belongs to the other lane.
    Foreign,
}
