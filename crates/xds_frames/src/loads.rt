ghost use Rattle.std.specs.Prelude.{◌≡◌, ◌≤◌, ℕ, IfOk, List};
ghost use Rattle.cue_lists.specs.declared.cue.Cue.{Cue};
ghost use Rattle.line21_codes.specs.declared.channels.Chan.TheVariants.{Cc3};
ghost use Rattle.xds_frames.specs.FreeSlots.{is_loading};
ghost use Rattle.xds_frames.specs.Loads.{AreLoadedInOrder, StandsAt};

use crate::span::Span;
use cue_lists::Cue;
use cue_lists::line21::is_on;
use line21_codes::Chan;
use std::alloc::{AllocError, Global};

/// The times in which the cues of CC3 are loaded, looked up frame by frame.
#[derive(Drop)]
pub struct Loads {
    spans: Vec<Span>,
    // The first of them that may still come.
    next: usize,
}

impl Loads {
    /// The times of a list's cues, whose LOADs on CC3 are in order, before frame 0.
    pub fn of(alloc: Global, cues: &[Cue]) -> Result<Loads, AllocError>
        ensures { IfOk result (λ loads. AreLoadedInOrder cues.now → StandsAt cues.now 0 loads) }
    {
        let mut spans = Vec::new(alloc);
        for cue in cues {
            if is_on(Chan::Cc3, cue.kind) {
                spans.push(Span {
                    load: cue.load,
                    show: cue.show,
                })?;
            }
        }
        Ok(Loads { spans, next: 0 })
    }

    /// Stands before frame 0 again.
    pub fn restart(&mut self)
        ensures { (cues : List Cue) (frame : ℕ) → StandsAt cues frame self.old
            → StandsAt cues 0 self.new }
    {
        self.next = 0;
    }

    /// Whether a cue of CC3 is loaded in this frame, which isn't before those that were looked up.
    pub fn has(&mut self, frame: u32) -> bool
        ensures { (cues : List Cue) → StandsAt cues frame self.old
            → (result ≡ is_loading Cc3 cues frame)
            × ((later : ℕ) → frame ≤ later → StandsAt cues later self.new) }
    {
        while self.next < self.spans.len() && self.spans[self.next].show <= frame {
            self.next += 1;
        }
        match self.spans.get(self.next) {
            Some(span) => span.load <= frame,
            None => false,
        }
    }
}
