ghost use Rattle.std.specs.Prelude.{◌≡◌, ◌≤◌, ◌+◌, ℕ};
ghost use Rattle.frame_scheduler.specs.Columns.{Columns};

use crate::overlaid::Overlaid;
use frame_scheduler::{FrameBytes, Frames};

/// What puts pairs of its own into frames that others give, frame by frame: a second channel of a field, or data of another service
/// in its free slots (CTA-608-E).
pub trait Overlay {
    /// For how many frames more it lasts, at least.
    ghost lasts: { Self → ℕ };
    /// Of the first columns it makes the second ones, and this frame is next.
    ghost Lays: { Columns → Columns → ℕ → Self → Type 0 };

    /// The next frame, with its pairs.
    fn lay(&mut self, bytes: FrameBytes) -> FrameBytes
        requires { 1 ≤ lasts self.old }
        ensures lasts { lasts self.old ≤ lasts self.new + 1 }
        ensures makes { (firsts columns : Columns) (frame : ℕ) → Lays firsts columns frame self.old
            → bytes ≡ firsts frame
            → (result ≡ columns frame) × Lays firsts columns (frame + 1) self.new };
}

impl<F: Frames + Drop, L: Overlay + Drop> Overlaid<F, L> {
    ghost use Rattle.frame_carrier.specs.OverlaidFrames.{frames_under, overlay_of};

    /// Frames over which this is laid, which lasts for all of them.
    pub fn new(frames: F, overlay: L) -> Overlaid<F, L>
        requires { F.left frames ≤ L.lasts overlay }
        ensures frames { frames_under result ≡ frames }
        ensures overlay { overlay_of result ≡ overlay }
    {
        Overlaid { frames, overlay }
    }
}

impl<F: Frames, L: Overlay> Frames for Overlaid<F, L> {
    ghost use Rattle.frame_carrier.specs.Overlays.{GivesOverlaid};

    ghost left = { λ over. F.left over.frames };

    ghost Gives = { λ columns frame over. GivesOverlaid F.Gives L.Lays columns frame over.frames over.overlay };

    fn next(&mut self) -> Option<FrameBytes> {
        match self.frames.next() {
            Some(bytes) => Some(self.overlay.lay(bytes)),
            None => None,
        }
    }
}
