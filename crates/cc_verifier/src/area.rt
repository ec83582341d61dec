ghost use Rattle.std.specs.Prelude.{◌≡◌, ◌≢◌, ◌<◌, ◌≤◌, false, true, ℕ};
ghost use Rattle.cue_lists.specs.AuthoredGrid.{authored_grid};
ghost use Rattle.cc_verifier.specs.ChannelCursors.{StandsAtFrame, cursor_channel};
ghost use Rattle.cc_verifier.specs.ChannelLines.{line_cell};
ghost use Rattle.cc_verifier.specs.ChannelTimes.{AreCuesTimed};
ghost use Rattle.cc_receiver.specs.Receivers.{displayed_grid};
ghost use Rattle.cue_types.specs.Channels.{cues_on};
ghost use Rattle.line21_screen.specs.Differences.{HasOther};

use crate::{ChannelCursor, Line, cell_at};
use cc_receiver::Receiver;
use cue_types::Cue;
use line21_codes::Chan;

/// Whether some place of the caption area, 15 rows of 32 columns, shows another cell than is authored at a frame (CTA-608-E; 47
/// CFR 79.101).
pub(crate) fn shows_other(
    receiver: &Receiver,
    cursor: &ChannelCursor,
    cues: &[Cue],
    frame: u32,
) -> bool
    requires timed { AreCuesTimed 0 (cues_on (cursor_channel cursor.now) cues.now) }
    requires stands { StandsAtFrame cues.now frame cursor.now }
    ensures other { result ≡ true
        → HasOther (displayed_grid receiver.now (cursor_channel cursor.now))
        (authored_grid (cursor_channel cursor.now) cues.now frame) }
    ensures same { result ≡ false
        → HasOther (displayed_grid receiver.now (cursor_channel cursor.now))
        (authored_grid (cursor_channel cursor.now) cues.now frame) → ⊥ }
{
    for row in 1..16u8 {
        let line = cursor.line(cues, frame, row);
        if row_shows_other(receiver, cursor.channel(), row, cues, line) {
            return true;
        }
    }
    false
}

/// Whether some column of a row, 1 to 15, shows another cell than what is to stand there.
fn row_shows_other(
    receiver: &Receiver,
    channel: Chan,
    row: u8,
    cues: &[Cue],
    line: Option<Line>,
) -> bool
    requires from { 1 ≤ row }
    requires to { row ≤ 15 }
    ensures other { result ≡ true
        → (column : ℕ) × (column < 32)
        × (displayed_grid receiver.now channel row column ≢ line_cell cues.now line column) }
    ensures same { result ≡ false → (column : ℕ) → column < 32
        → displayed_grid receiver.now channel row column ≡ line_cell cues.now line column }
{
    for column in 0..32u8 {
        if receiver.cell(channel, row, column) != cell_at(cues, line, column) {
            return true;
        }
    }
    false
}
