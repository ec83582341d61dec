ghost use Rattle.std.specs.Prelude.{◌≡◌};
ghost use Rattle.cue_lists.specs.Rules.Alternatives.{first_broken};
ghost use Rattle.cue_lists.specs.Rules.OffSlot.{lacks_slot, off_slot};

use crate::rules::against::Against;
use cc_base::Rate;
use cue_types::{Cue, Kind};
use line21_slots::Cadence;

/// Whether a cue breaks the rule OffSlot: it is a line 21 cue that is shown or hidden in a frame in which its field has no
/// slot.
pub fn breaks_off_slot(rate: Rate, cue: &Cue) -> Option<Against>
    ensures { result ≡ first_broken (off_slot rate cue.now) }
{
    if lacks_slot(rate, cue.kind, cue.show)
        || matches!(cue.hide, Some(hide) if lacks_slot(rate, cue.kind, hide))
    {
        return Some(Against::Itself);
    }
    None
}

/// The field of a line 21 cue has no slot in a frame; a window cue needs none.
fn lacks_slot(rate: Rate, kind: Kind, frame: u32) -> bool
    ensures { result ≡ lacks_slot rate kind frame }
{
    match kind {
        Kind::Pop(channel) | Kind::Paint(channel) | Kind::Roll(channel, _) => {
            !Cadence::of(rate, channel).has_slot_in(frame)
        }
        Kind::Win(_) => false,
    }
}
