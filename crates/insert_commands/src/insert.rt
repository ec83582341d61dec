ghost use Rattle.command_base.specs.Ends.{ends};
ghost use Rattle.command_base.specs.SideEnds.{side_ends};
ghost use Rattle.cue_list_commands.specs.Output.{IsPlacedAs};
ghost use Rattle.insert_commands.specs.InsertVerdict.{InsertVerdict};
ghost use Rattle.command_base.specs.Realises.{RealisesBeside};

use crate::inserting::Inserting;
use cc_base::{Sink, Source};
use command_base::Status;
use cue_list_commands::read_programme;
use std::alloc::Global;
use words_reading::read_words;

/// Reads a cue list from a side file, judges it, its room too, and then puts a words file with the list's captions in place of its own.
/// Packets that aren't of captions stay as they are. What one take gave is put before the next take.
///
/// Differs comes at the first frame with another rate than the list's, and Limit (Packet) at the first whose distribution packet would
/// have more than 255 bytes. Malformed comes at the first offending word, or where the file is cut short, and Short where the file has
/// fewer frames than the list.
pub fn run_insert<M: Source, S: Source, O: Sink>(
    alloc: Global,
    input: &mut M,
    side: &mut S,
    out: &mut O,
) -> Status
    ensures { RealisesBeside IsPlacedAs InsertVerdict
        (side_ends (S.left side.old) (S.faults side.old))
        (side_ends (S.left side.new) (S.faults side.new))
        (ends (M.left input.old) (M.faults input.old) (O.written out.old) (O.faults out.old))
        (ends (M.left input.new) (M.faults input.new) (O.written out.new)
        (O.faults out.new)) result }
{
    let programme = match read_programme(alloc, side) {
        Ok(programme) => programme,
        Err(status) => return status,
    };
    let Ok(mut inserting) = Inserting::new(alloc, programme) else {
        return Status::Memory;
    };
    match read_words(&mut inserting, input, out) {
        Ok(()) => {
            if inserting.is_over() {
                Status::Ok
            } else {
                Status::Short(inserting.frames())
            }
        }
        Err(stop) => stop.status(),
    }
}
