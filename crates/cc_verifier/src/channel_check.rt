ghost use Rattle.std.specs.Prelude.{◌≡◌, ◌<◌, ◌+◌, false, true, IfOk, ℕ};
ghost use Rattle.cue_lists.specs.AuthoredGrid.{IsSettled, authored_grid};
ghost use Rattle.cc_verifier.specs.ChannelTimes.{AreCuesTimed};
ghost use Rattle.cc_receiver.specs.Receivers.{displayed_grid};
ghost use Rattle.cc_verifier.specs.Checks.{IsReadyToCheck, Knows, LeavesGrid};
ghost use Rattle.cue_types.specs.Channels.{cues_on};
ghost use Rattle.line21_screen.specs.Differences.{HasOther};
ghost use Rattle.line21_screen.specs.Objects.{grid_in};
ghost use Rattle.line21_screen.specs.Grid.{Grid as GridOf};

use crate::ChannelCursor;
use crate::area::shows_other;
use cc_receiver::Receiver;
use cue_types::Cue;
use line21_codes::Chan;
use line21_screen::Memory;
use std::alloc::{AllocError, Global};

/// The check of a channel, frame by frame: what it is to show, and what it showed when it was last seen to be that.
///
/// Cells are compared only where the channel shows something else than before, where it is to show something else, or where it
/// was not settled before.
#[derive(Drop)]
pub(crate) struct ChannelCheck {
    cursor: ChannelCursor,
    // What was shown, where it was seen to be what is authored.
    seen: Memory,
    // Whether it is still what is authored at the frame to come.
    agrees: bool,
}

impl ChannelCheck {
    /// The check of a channel before frame 0. All memory that it ever takes is taken here.
    pub(crate) fn new(
        alloc: Global,
        channel: Chan,
        cues: &[Cue],
    ) -> Result<ChannelCheck, AllocError>
        requires { AreCuesTimed 0 (cues_on channel cues.now) }
        ensures ready { IfOk result (IsReadyToCheck cues.now 0) }
        ensures knows { IfOk result
            (λ check. (former : GridOf) → Knows channel cues.now 0 former check) }
    {
        Ok(ChannelCheck {
            cursor: ChannelCursor::new(channel, cues),
            seen: Memory::new(alloc)?,
            agrees: false,
        })
    }

    /// Whether the channel shows at a frame something else than it is to show, where the frame is settled for it. In an idle frame
    /// it shows what it showed at the frame before.
    pub(crate) fn differs(
        &mut self,
        receiver: &Receiver,
        cues: &[Cue],
        frame: u32,
        is_idle: bool,
    ) -> bool
        requires { IsReadyToCheck cues.now frame self.now }
        ensures ready { IsReadyToCheck cues.now frame self.new }
        ensures differs { (channel : Chan) (former : GridOf)
            → Knows channel cues.now frame former self.old
            → LeavesGrid is_idle former (displayed_grid receiver.now channel)
            → result ≡ true → IsSettled channel cues.now frame
            × HasOther (displayed_grid receiver.now channel)
            (authored_grid channel cues.now frame) }
        ensures agrees { (channel : Chan) (former : GridOf)
            → Knows channel cues.now frame former self.old
            → LeavesGrid is_idle former (displayed_grid receiver.now channel)
            → result ≡ false → IsSettled channel cues.now frame
            → HasOther (displayed_grid receiver.now channel) (authored_grid channel cues.now frame)
            → ⊥ }
        ensures knows { (channel : Chan) (former : GridOf)
            → Knows channel cues.now frame former self.old
            → LeavesGrid is_idle former (displayed_grid receiver.now channel)
            → result ≡ false → Knows channel cues.now frame
            (displayed_grid receiver.now channel) self.new }
    {
        let now = receiver.displayed(self.cursor.channel());
        if self.still_agrees(now, is_idle) {
            return false;
        }
        self.agrees = false;
        if !self.cursor.is_settled(cues, frame) {
            return false;
        }
        if shows_other(receiver, &self.cursor, cues, frame) {
            return true;
        }
        self.seen.copy_from(now);
        self.agrees = true;
        false
    }

    /// Whether what the channel shows now was seen to be what is authored: in an idle frame it needs no comparison.
    fn still_agrees(&self, now: &Memory, is_idle: bool) -> bool
        ensures agrees { result ≡ true → self.now.agrees ≡ true }
        ensures same { result ≡ true → is_idle ≡ false → grid_in self.now.seen ≡ grid_in now.now }
    {
        self.agrees && (is_idle || !self.seen.differs(now))
    }

    /// Goes on to the next frame, of this number.
    pub(crate) fn advance(&mut self, cues: &[Cue], frame: u32)
        requires { (former : ℕ) × (frame ≡ former + 1) × IsReadyToCheck cues.now former self.now }
        ensures ready { IsReadyToCheck cues.now frame self.new }
        ensures knows { (channel : Chan) (former : ℕ) (grid : GridOf) → frame ≡ former + 1
            → Knows channel cues.now former grid self.old
            → Knows channel cues.now frame grid self.new }
    {
        if self.cursor.advance(cues, frame) {
            self.agrees = false;
        }
    }
}
