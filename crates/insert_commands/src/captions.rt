ghost use Rattle.std.specs.Prelude.{◌≡◌, ◌<◌, ◌≤◌, ◌+◌, ℕ, All, MatchBool, length};
ghost use Rattle.cue_list_commands.specs.Framing.{Framing, HasFraming};
ghost use Rattle.insert_commands.specs.Captions.{captions_of, padded};
ghost use Rattle.insert_commands.specs.ListCaptions.{GivesFramed, GivesPlanned};

use arrayvec::ArrayVec;
use cc_base::Rate;
use cc_data::Triplet;
use cue_list_commands::{Carrier, FrameBytes, Frames, Programme};

/// The captions of a programme, frame by frame.
#[derive(Drop)]
pub struct Captions<F> {
    rate: Rate,
    // The next frame; None after the programme's end.
    ahead: Option<FrameBytes>,
    // Those after it.
    frames: F,
    carrier: Carrier,
}

impl<F: Frames + Drop> Captions<F> {
    /// The captions of a programme, from frame 0 on.
    pub(crate) fn new(programme: Programme<F>) -> Captions<F>
        ensures { (list : Framing) → HasFraming F.left F.Gives list programme
            → GivesFramed F.left F.Gives list 0 result }
    {
        let Programme { rate, mut frames } = programme;
        Captions {
            rate,
            ahead: frames.next(),
            frames,
            carrier: Carrier::new(rate),
        }
    }

    /// The frame rate of the programme.
    pub(crate) fn rate(&self) -> Rate
        ensures { (list : Framing) (frame : ℕ) → GivesFramed F.left F.Gives list frame self.now
            → result ≡ list.rate }
    {
        self.rate
    }

    /// The triplets of the next frame, which has this number.
    pub(crate) fn next(&mut self, frame: u32) -> ArrayVec<Triplet, 31>
        ensures gives { (list : Framing) → GivesFramed F.left F.Gives list frame self.old
            → (result.items ≡ captions_of list frame)
            × GivesFramed F.left F.Gives list (frame + 1) self.new }
        ensures kinds { All (λ t. t.kind < 4) result.items }
        ensures few { length result.items ≤ 31 }
    {
        let bytes = self.next_frame(frame);
        self.carrier.triplets(&bytes)
    }

    /// What the next frame carries: the programme's next one, or a frame without captions.
    fn next_frame(&mut self, frame: u32) -> FrameBytes
        ensures gives { (list : Framing) → GivesFramed F.left F.Gives list frame self.old
            → (result ≡ padded list frame) × GivesPlanned F.left F.Gives list frame self.new }
    {
        match self.ahead.take() {
            Some(bytes) => {
                self.ahead = self.frames.next();
                bytes
            }
            None => FrameBytes::silent(self.rate, frame),
        }
    }

    /// Whether the programme has no frame from the next one on.
    pub(crate) fn is_over(&self) -> bool
        ensures { (list : Framing) (frame : ℕ) → GivesFramed F.left F.Gives list frame self.now
            → MatchBool result (list.count ≤ frame) (frame < list.count) }
    {
        self.ahead.is_none()
    }
}
