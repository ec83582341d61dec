ghost use Rattle.std.specs.Prelude.{◌≤◌, ℕ, [], Some, IfOk};
ghost use Rattle.command_base.specs.Ends.{ends};
ghost use Rattle.command_base.specs.Realises.{RealisesLeaving};
ghost use Rattle.load_commands.specs.LoadVerdict.{LoadVerdict};
ghost use Rattle.load_commands.specs.LoadOutput.{AreLoadLines, summary_text};
ghost use Rattle.load_commands.specs.LoadList.{most_load};

use crate::load_list;
use crate::reception::receive;
use crate::summary::Summary;
use cc_base::{Put, Sink, SteadySource};
use command_base::Status;
use cue_list_commands::read_programme;
use cue_lists::print;
use std::alloc::{AllocError, Global};

/// Makes the list of this many captions, 1 to 10,000, writes it, reads it as any other list, plans it, carries each of its frames,
/// and feeds their words to a receiver. Puts the numbers of captions and of frames, the bytes of words that were fed, and the
/// frames that `decode` would print, a line each.
///
/// Memory comes before anything is put. There is no other refusal: the list is accepted, whatever the number.
pub fn run_load<O: Sink>(alloc: Global, count: u32, out: &mut O) -> Status
    requires some { 1 ≤ count }
    requires most { count ≤ most_load }
    ensures { (reads : ℕ) → RealisesLeaving (LoadVerdict count)
        (ends (Some []) reads (O.written out.old) (O.faults out.old))
        (ends (Some []) reads (O.written out.new) (O.faults out.new)) result }
{
    let Ok(summary) = load(alloc, count) else {
        return Status::Memory;
    };
    match summary.put(out) {
        Put::Done => Status::Ok,
        Put::Failed => Status::WriteFault,
    }
}

/// What comes of the list of this many captions.
fn load(alloc: Global, count: u32) -> Result<Summary, AllocError>
    requires some { 1 ≤ count }
    requires most { count ≤ most_load }
    ensures { IfOk result (λ summary. AreLoadLines count (summary_text summary)) }
{
    let list = load_list(alloc, count)?;
    let mut text = SteadySource::new(print(alloc, &list)?);
    match read_programme(alloc, &mut text) {
        Ok(programme) => {
            let reception = receive(alloc, programme)?;
            Ok(Summary {
                cues: count,
                frames: list.frames(),
                bytes: reception.bytes(),
                changes: reception.changes(),
            })
        }
        Err(status) => match status {
            Status::Memory => Err(AllocError),
            _ => unreachable!(),
        },
    }
}
