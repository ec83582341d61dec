ghost use Rattle.std.specs.Prelude.{◌≡◌, ◌<◌, ◌≤◌, ◌+◌, false, true, nat_le, ℕ, length};
ghost use Rattle.cue_lists.specs.AuthoredGrid.{IsSettled, authored_grid, shown_of_newest};
ghost use Rattle.cue_types.specs.Hide.{hide_is};
ghost use Rattle.cc_verifier.specs.ChannelCursors.{HasPassedShown, StandsAtFrame, cursor_channel};
ghost use Rattle.cc_verifier.specs.ChannelLines.{line_cell};
ghost use Rattle.cc_verifier.specs.ChannelNewest.{newest};
ghost use Rattle.cc_verifier.specs.ChannelTimes.{AreCuesTimed};
ghost use Rattle.cue_types.specs.Channels.{cues_on};

use crate::channel_chain::{chain_cue, last_on};
use crate::channel_line::Line;
use cue_types::lane::is_pop;
use cue_types::line21::{base_row, is_on};
use cue_types::{Cue, Kind};
use line21_codes::Chan;

/// Where a channel stands in the cues of a list at a frame: after the last of its cues whose SHOW has come.
#[derive(Clone, Copy, PartialEq, Eq)]
pub struct ChannelCursor {
    channel: Chan,
    // The number of the last cue of the channel whose SHOW has come, counted from 0.
    last: Option<usize>,
    // The number of the channel's next cue, or how many cues there are.
    next: usize,
}

impl ChannelCursor {
    /// The cursor of a channel at frame 0.
    pub fn new(channel: Chan, cues: &[Cue]) -> ChannelCursor
        requires { AreCuesTimed 0 (cues_on channel cues.now) }
        ensures channel { cursor_channel result ≡ channel }
        ensures stands { StandsAtFrame cues.now 0 result }
    {
        let mut cursor = ChannelCursor {
            channel,
            last: None,
            next: 0,
        };
        cursor.pass(cues, 0);
        cursor
    }

    /// The channel.
    pub fn channel(&self) -> Chan
        ensures { result ≡ cursor_channel self.now }
    {
        self.channel
    }

    /// Goes on to the next frame, of this number, and says whether what the channel is to show may have changed.
    pub fn advance(&mut self, cues: &[Cue], frame: u32) -> bool
        requires timed { AreCuesTimed 0 (cues_on (cursor_channel self.now) cues.now) }
        requires stands { (former : ℕ) × (frame ≡ former + 1)
            × StandsAtFrame cues.now former self.now }
        ensures channel { cursor_channel self.new ≡ cursor_channel self.old }
        ensures stands { StandsAtFrame cues.now frame self.new }
        ensures same { (former : ℕ) → frame ≡ former + 1 → result ≡ false
            → authored_grid (cursor_channel self.old) cues.now frame
            ≡ authored_grid (cursor_channel self.old) cues.now former }
    {
        let next = self.next;
        self.pass(cues, frame);
        next != self.next || self.hides_at(cues, frame)
    }

    /// Passes the cues of the channel whose SHOW has come at a frame.
    fn pass(&mut self, cues: &[Cue], frame: u32)
        requires { HasPassedShown cues.now frame self.now }
        ensures channel { cursor_channel self.new ≡ cursor_channel self.old }
        ensures stands { StandsAtFrame cues.now frame self.new }
        ensures same { self.new.next ≡ self.old.next → self.new ≡ self.old }
    {
        let start = self.next;
        while self.next < cues.len() {
            let cue = &cues[self.next];
            if is_on(self.channel, cue.kind) && frame < cue.show {
                break;
            }
            self.next += 1;
        }
        if self.next != start {
            self.last = last_on(self.channel, cues, self.next);
        }
    }

    /// Whether the last cue whose SHOW has come is hidden in this frame.
    fn hides_at(&self, cues: &[Cue], frame: u32) -> bool
        requires { HasPassedShown cues.now frame self.now }
        ensures { result ≡ false → (former : ℕ) → frame ≡ former + 1
            → shown_of_newest frame (newest self.now.channel cues.now self.now.next)
            ≡ shown_of_newest former (newest self.now.channel cues.now self.now.next) }
    {
        match self.last {
            Some(number) => cues[number].hide == Some(frame),
            None => false,
        }
    }

    /// Whether a frame is settled for the channel: no paint-on or roll-up cue is being written onto its screen.
    pub fn is_settled(&self, cues: &[Cue], frame: u32) -> bool
        requires timed { AreCuesTimed 0 (cues_on (cursor_channel self.now) cues.now) }
        requires stands { StandsAtFrame cues.now frame self.now }
        ensures settled { result ≡ true → IsSettled (cursor_channel self.now) cues.now frame }
        ensures unsettled { result ≡ false → IsSettled (cursor_channel self.now) cues.now frame
            → ⊥ }
    {
        match cues.get(self.next) {
            Some(cue) => is_pop(cue.kind) || frame < cue.load,
            None => true,
        }
    }

    /// What the channel is to show in a row, 1 to 15, at a frame.
    pub fn line(&self, cues: &[Cue], frame: u32, row: u8) -> Option<Line>
        requires timed { AreCuesTimed 0 (cues_on (cursor_channel self.now) cues.now) }
        requires stands { StandsAtFrame cues.now frame self.now }
        ensures { (column : ℕ) → authored_grid (cursor_channel self.now) cues.now frame row column
            ≡ line_cell cues.now result column }
    {
        let number = self.last?;
        let cue = &cues[number];
        if is_past(cue.hide, frame) {
            return None;
        }
        match cue.kind {
            Kind::Pop(_) | Kind::Paint(_) => Some(Line { cue: number, row }),
            Kind::Roll(_, rows) => {
                let base = base_row(cue);
                if row <= base && base - row < rows {
                    let cue = chain_cue(self.channel, cues, number, base - row)?;
                    Some(Line { cue, row: base })
                } else {
                    None
                }
            }
            Kind::Win(_) => None,
        }
    }
}

/// The HIDE has come by the frame; an empty one never comes.
fn is_past(hide: Option<u32>, frame: u32) -> bool
    ensures { result ≡ hide_is hide (λ hide. nat_le hide frame) }
{
    matches!(hide, Some(hide) if hide <= frame)
}
