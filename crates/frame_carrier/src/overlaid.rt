ghost use Rattle.std.specs.Prelude.{◌≤◌};

use crate::overlay::Overlay;
use frame_scheduler::Frames;

/// Frames with what is laid over them.
#[derive(Drop)]
pub struct Overlaid<F: Frames, L: Overlay> {
    pub(crate) frames: F,
    pub(crate) overlay: L,
    ghost within: { F.left frames ≤ L.lasts overlay },
}
