/// Units of a service that stand in one frame: those after the batch before. Frames are counted from 0.
#[derive(Clone, Copy)]
pub struct Batch {
    /// The frame of the units.
    pub frame: u32,
    /// The number of the service's units up to the last of them.
    pub units: usize,
    /// The number of the bytes of these.
    pub bytes: usize,
}
