/// What a cue asks of the places of its units, and how many it has. Frames are counted from 0.
#[derive(Clone, Copy)]
pub struct CueLoad {
    /// The frame before which none of the units stands.
    pub load: u32,
    /// The frame that all of them stand before.
    pub until: u32,
    /// The number of the cue, counted from 1.
    pub cue: u32,
    /// The number of its units.
    pub count: usize,
}
