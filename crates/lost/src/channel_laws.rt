//! Laws of the definitions: functions without a body, whose contract is the law.

ghost use Rattle.std.specs.Prelude.{[], ◌∷◌, ◌++◌};
ghost use Rattle.line21_codes.specs.declared.channels.Chan.TheVariants.{Cc1};
ghost use Rattle.line21_shown.specs.Examples.{ArePairsSent, empty_rows, letter_row, rolling};
ghost use Rattle.lost.specs.ChannelExamples.{ShowsAgain, ShowsBehind, letter_b, letter_c, two_letters};
ghost use Rattle.lost.specs.ChannelLoss.{AuthoredIsSeenAgain, Resynchronises, SilentIsBlank};

/// What is authored is seen again after lost frames. Let a receiver be reset right after a lost frame, and hear all frames from there on.
/// From the SHOW on of a cue that resynchronises the channel it shows at every settled frame the authored grids of CC1 and CC3. A cue does
/// so if each cue of which something is seen with it has its LOAD after the lost frame, of a roll-up cue as many of its chain as it has
/// rows. So it is whatever the loss cut apart: a doubled code, a load, rows that roll up.
pub fn authored_is_seen_again()
    ensures { AuthoredIsSeenAgain }
{}

/// A receiver that is reset before any frame, and hears all frames from there on, shows nothing on CC2 and CC4, nor on CC1 or CC3 where the
/// list has no cue of it.
pub fn silent_channels_are_blank()
    ensures { SilentIsBlank }
{}

/// What is seen after the loss of one frame, worked out by hand. Of two pop-on captions, A and B, frame 3 is lost, one of a doubled
/// code: A isn't seen, whose load was cut, and B is seen as it is authored, as it resynchronises the channel.
pub fn captions_behind_a_loss_are_seen()
    ensures sent { ArePairsSent two_letters }
    ensures cut { ShowsBehind two_letters 3 17 (empty_rows 15) }
    ensures from { ShowsAgain two_letters 3 18 (empty_rows 14 ++ letter_row 66 ∷ []) }
    ensures to { ShowsAgain two_letters 3 20 (empty_rows 15) }
    ensures again { Resynchronises Cc1 two_letters.cues 3 letter_b }
{}

/// Of a chain of roll-up captions of two rows, A, B and C, frame 1 is lost, worked out by hand. At frame 15 B stands alone, though it continues
/// A and is authored below it. At frame 23, where C continues B, both are seen as they are authored, as both were loaded after the loss.
pub fn rows_behind_a_loss_are_seen()
    ensures cut { ShowsBehind rolling 1 15 (empty_rows 10 ++ letter_row 66 ∷ empty_rows 4) }
    ensures from { ShowsAgain rolling 1 23
        (empty_rows 9 ++ letter_row 66 ∷ letter_row 67 ∷ empty_rows 4) }
    ensures to { ShowsAgain rolling 1 25 (empty_rows 15) }
    ensures again { Resynchronises Cc1 rolling.cues 1 letter_c }
{}
