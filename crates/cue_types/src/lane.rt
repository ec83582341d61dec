ghost use Rattle.std.specs.Prelude.{◌≡◌};
ghost use Rattle.cue_types.specs.Lane.{kind_lane, is_line21, is_win, is_pop, is_paint, is_roll};

use crate::cue::Kind;
use line21_codes::Chan;

/// What a cue is sent on.
#[derive(Clone, Copy, PartialEq, Eq)]
pub enum Lane {
    /// A channel of line 21.
    Channel(Chan),
    /// A service of DTVCC.
    Service(u8),
}

/// The lane of a kind of cue.
pub fn lane_of(kind: Kind) -> Lane
    ensures { result ≡ kind_lane kind }
{
    match kind {
        Kind::Pop(channel) | Kind::Paint(channel) | Kind::Roll(channel, _) => Lane::Channel(
            channel,
        ),
        Kind::Win(window) => Lane::Service(window.service),
    }
}

/// A cue of line 21.
pub fn is_line21(kind: Kind) -> bool
    ensures { result ≡ is_line21 kind }
{
    !matches!(kind, Kind::Win(_))
}

/// A window cue, of a service.
pub fn is_win(kind: Kind) -> bool
    ensures { result ≡ is_win kind }
{
    matches!(kind, Kind::Win(_))
}

/// A pop-on cue.
pub fn is_pop(kind: Kind) -> bool
    ensures { result ≡ is_pop kind }
{
    matches!(kind, Kind::Pop(_))
}

/// A paint-on cue.
pub fn is_paint(kind: Kind) -> bool
    ensures { result ≡ is_paint kind }
{
    matches!(kind, Kind::Paint(_))
}

/// A roll-up cue.
pub fn is_roll(kind: Kind) -> bool
    ensures { result ≡ is_roll kind }
{
    matches!(kind, Kind::Roll(_, _))
}
