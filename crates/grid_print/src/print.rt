ghost use Rattle.std.specs.Prelude.{ℕ, List, Option};
ghost use Rattle.cc_base.specs.Streams.{PutCause, Puts};
ghost use Rattle.cdp_packets.specs.Packets.{Frame};
ghost use Rattle.grid_print.specs.GridTexts.{all_text};
ghost use Rattle.dtvcc_windows.specs.Showing.{ShownWindow};
ghost use Rattle.grid_print.specs.Screens.{IsBehind, received_screens, screens_of};

use crate::service::write_shown_services;
use crate::text::{write_frame, write_grid_unless_empty};
use cc_base::{Put, Sink};
use cc_receiver::{Grids, Receiver};
use line21_codes::Chan;
use text_output::Gathered;

/// Puts the line of a frame, the grid of each channel that has a cell, and the windows of each service of which one is shown, of whatever
/// shows them. Failed comes only where the sink's count of faults rose, and then a front of the text was put.
pub fn put_all_of<G: Grids, O: Sink>(r: &G, frame: u64, out: &mut O) -> Put
    ensures bytes { (seen : ℕ → ℕ → Option ShownWindow) → G.shows r.now seen
        → Puts (O.written out.old) (O.written out.new) result
        (all_text frame (screens_of (G.grids r.now) seen)) }
    ensures cause { PutCause (O.faults out.old) (O.faults out.new) result }
{
    let mut text = Gathered::new();
    text.begin();
    write_frame(frame, &mut text, out);
    write_grid_unless_empty(Chan::Cc1, r.displayed(Chan::Cc1), &mut text, out);
    write_grid_unless_empty(Chan::Cc2, r.displayed(Chan::Cc2), &mut text, out);
    write_grid_unless_empty(Chan::Cc3, r.displayed(Chan::Cc3), &mut text, out);
    write_grid_unless_empty(Chan::Cc4, r.displayed(Chan::Cc4), &mut text, out);
    write_shown_services(r, &mut text, out);
    text.finish(out)
}

/// The same of a receiver, at a frame of which the line has the number.
pub fn put_all<O: Sink>(r: &Receiver, frame: u32, out: &mut O) -> Put
    ensures bytes { (frames : List Frame) → IsBehind frames r.now
        → Puts (O.written out.old) (O.written out.new) result
        (all_text frame (received_screens frames)) }
    ensures cause { PutCause (O.faults out.old) (O.faults out.new) result }
{
    put_all_of(r, u64::from(frame), out)
}
