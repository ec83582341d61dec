ghost use Rattle.std.specs.Prelude.{◌≡◌, ◌<◌, ◌+◌, None, IfOk, ℕ};
ghost use Rattle.cc_receiver.specs.Receivers.{displayed_grid};
ghost use Rattle.line21_screen.specs.Grid.{Grid as GridOf};
ghost use Rattle.cc_verifier.specs.Channels.{AreReady, AreTimedAll, IsFirstOther, KnowAll, LeaveGrids};

use crate::channel_check::ChannelCheck;
use cc_receiver::Receiver;
use cue_types::Cue;
use line21_codes::Chan;
use std::alloc::{AllocError, Global};

/// The checks of the four channels of line 21 (CTA-608-E).
#[derive(Drop)]
pub struct ChannelChecks {
    cc1: ChannelCheck,
    cc2: ChannelCheck,
    cc3: ChannelCheck,
    cc4: ChannelCheck,
}

impl ChannelChecks {
    /// The checks before frame 0. All memory that they ever take is taken here.
    pub fn new(alloc: Global, cues: &[Cue]) -> Result<ChannelChecks, AllocError>
        requires { AreTimedAll cues.now }
        ensures ready { IfOk result (AreReady cues.now 0) }
        ensures knows { IfOk result
            (λ checks. (former : Chan → GridOf) → KnowAll cues.now 0 former checks) }
    {
        Ok(ChannelChecks {
            cc1: ChannelCheck::new(alloc, Chan::Cc1, cues)?,
            cc2: ChannelCheck::new(alloc, Chan::Cc2, cues)?,
            cc3: ChannelCheck::new(alloc, Chan::Cc3, cues)?,
            cc4: ChannelCheck::new(alloc, Chan::Cc4, cues)?,
        })
    }

    /// The first of CC1 to CC4 that shows at a frame, which is settled for it, something else than it is to show. In an idle frame
    /// each shows what it showed at the frame before.
    pub fn find(
        &mut self,
        receiver: &Receiver,
        cues: &[Cue],
        frame: u32,
        is_idle: bool,
    ) -> Option<Chan>
        requires { AreReady cues.now frame self.now }
        ensures ready { AreReady cues.now frame self.new }
        ensures first { (former : Chan → GridOf) → KnowAll cues.now frame former self.old
            → LeaveGrids is_idle former (displayed_grid receiver.now)
            → IsFirstOther cues.now frame (displayed_grid receiver.now) result }
        ensures knows { (former : Chan → GridOf) → KnowAll cues.now frame former self.old
            → LeaveGrids is_idle former (displayed_grid receiver.now)
            → result ≡ None → KnowAll cues.now frame (displayed_grid receiver.now) self.new }
    {
        if self.cc1.differs(receiver, cues, frame, is_idle) {
            return Some(Chan::Cc1);
        }
        if self.cc2.differs(receiver, cues, frame, is_idle) {
            return Some(Chan::Cc2);
        }
        if self.cc3.differs(receiver, cues, frame, is_idle) {
            return Some(Chan::Cc3);
        }
        if self.cc4.differs(receiver, cues, frame, is_idle) {
            return Some(Chan::Cc4);
        }
        None
    }

    /// Go on to the next frame, of this number.
    pub fn advance(&mut self, cues: &[Cue], frame: u32)
        requires { (former : ℕ) × (frame ≡ former + 1) × AreReady cues.now former self.now }
        ensures ready { AreReady cues.now frame self.new }
        ensures knows { (former : ℕ) (grids : Chan → GridOf) → frame ≡ former + 1
            → KnowAll cues.now former grids self.old
            → KnowAll cues.now frame grids self.new }
    {
        self.cc1.advance(cues, frame);
        self.cc2.advance(cues, frame);
        self.cc3.advance(cues, frame);
        self.cc4.advance(cues, frame);
    }
}
