ghost use Rattle.std.specs.Prelude.{◌≡◌, ◌++◌, IfOk, OnOk};
ghost use Rattle.cue_types.specs.Cues.{IsCueFormed};
ghost use Rattle.dtvcc_author.specs.CueUnits.{AreSpelled, window_cue_units};
ghost use Rattle.dtvcc_author.specs.WindowCommands.{commands_of};

use crate::commands::push_window;
use crate::packed::PackedUnits;
use crate::unit::DUnits;
use cue_types::{Cue, Kind};
use std::alloc::{AllocError, Global};

/// The units of a window cue, in the order in which its service sends them (CTA-708-E, DF, SWA, SPL, SPA, SPC). These are
/// DefineWindow of a hidden window, its attributes where the cue has its own, and for each run its location, its pen, its
/// colours and its characters. The colours are sent where some run of the cue has its own. A line 21 cue has none.
/// `AllocError` where there is no memory for them.
pub fn units(alloc: Global, cue: &Cue) -> Result<DUnits, AllocError>
    requires { IsCueFormed cue.now }
    ensures units { IfOk result (λ units. units ≡ window_cue_units cue.now) }
    ensures spelled { IfOk result (AreSpelled (commands_of cue.now)) }
{
    let mut packed = PackedUnits::new(alloc);
    push_units(&mut packed, cue)?;
    let units = packed.unpack(alloc)?;
    Ok(units)
}

/// Appends the units of a window cue to others. `AllocError` where there is no memory for them; some of them may be there then.
pub fn push_units(units: &mut PackedUnits, cue: &Cue) -> Result<(), AllocError>
    requires { IsCueFormed cue.now }
    ensures { OnOk result (units.new ≡ units.old ++ window_cue_units cue.now) }
{
    if let Kind::Win(window) = cue.kind {
        push_window(units, window, cue.runs.as_slice())?;
    }
    Ok(())
}
