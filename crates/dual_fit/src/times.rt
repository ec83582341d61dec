/// The times of a cue: the frame in which it is shown, and that in which it is hidden, if there is one.
#[derive(Clone, Copy, PartialEq, Eq)]
pub struct Times {
    pub show: u32,
    pub hide: Option<u32>,
}
