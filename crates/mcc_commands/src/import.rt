ghost use Rattle.std.specs.Prelude.{◌≡◌, [], length};
ghost use Rattle.command_base.specs.Ends.{ends};
ghost use Rattle.command_base.specs.Realises.{RealisesLeaving};
ghost use Rattle.text_output.specs.Gathered.{held_of};
ghost use Rattle.mcc_commands.specs.ImportMcc.{ImportMccVerdict};
ghost use Rattle.mcc_commands.specs.Importing.{HasImported, PutsRest, ReadsFile};

use crate::import_stop::MccStop;
use crate::importing::Importing;
use cc_base::{Put, Sink, Source, Took};
use command_base::Status;
use std::alloc::Global;
use text_output::Gathered;
use words_reading::{Stop, TAKE, WORDS_LIMIT};

/// Reads an MCC file, and puts the words of its packets, and where packets of captions stand more than one frame after one another the
/// frames without captions that are missing between them. What one take gave is judged, and its packets put, before the next take.
///
/// Malformed comes at the first offence of the file or of the words of its packets; then the packets of the lines that ended before were
/// put. Limit (Frames) comes at a packet of captions with which more than 5,184,000 frames would be put. Limit (Bytes) comes at a packet
/// with which more than 2,147,483,647 bytes would be, and at the byte after as many of the file. Then nothing of the packet is put.
pub fn run_import_mcc<M: Source, O: Sink>(alloc: Global, input: &mut M, out: &mut O) -> Status
    ensures { RealisesLeaving ImportMccVerdict
        (ends (M.left input.old) (M.faults input.old) (O.written out.old) (O.faults out.old))
        (ends (M.left input.new) (M.faults input.new) (O.written out.new)
        (O.faults out.new)) result }
{
    let Ok(mut importing) = Importing::new(alloc) else {
        return Status::Memory;
    };
    let mut text = Gathered::new();
    let read = read_file(&mut importing, input, &mut text, out);
    match put_rest(read, &mut text, out) {
        Ok(()) => Status::Ok,
        Err(stop) => stop.status(),
    }
}

/// Reads an MCC file to its end, or up to where it, a limit or the streams stop the run. What one take gave is put before the next take.
fn read_file<M: Source, O: Sink>(
    importing: &mut Importing,
    input: &mut M,
    text: &mut Gathered,
    out: &mut O,
) -> Result<(), Stop<MccStop>>
    requires fresh { HasImported [] [] importing.old }
    requires none { held_of text.old ≡ [] }
    ensures { ReadsFile
        (ends (M.left input.old) (M.faults input.old) (O.written out.old) (O.faults out.old))
        (ends (M.left input.new) (M.faults input.new) (O.written out.new) (O.faults out.new))
        (held_of text.new) result }
{
    let mut bytes = [0u8; TAKE];
    let mut room = WORDS_LIMIT;
    loop {
        match input.take(&mut bytes) {
            Took::End => return importing.end(text, out),
            Took::Failed => return Err(Stop::ReadFault),
            Took::Got(count) => {
                importing.take_all(&bytes[..count.min(room)], text, out)?;
                match text.flush(out) {
                    Put::Done => {}
                    Put::Failed => return Err(Stop::WriteFault),
                }
                if room < count {
                    return Err(Stop::Limit);
                }
                room -= count;
            }
        }
    }
}

/// Puts what is held of the words, however the reading ended.
fn put_rest<O: Sink>(
    read: Result<(), Stop<MccStop>>,
    text: &mut Gathered,
    out: &mut O,
) -> Result<(), Stop<MccStop>>
    ensures { PutsRest (O.written out.old) (O.faults out.old) (O.written out.new)
        (O.faults out.new) (held_of text.old) read result }
{
    match read {
        Err(Stop::ReadFault) => return Err(Stop::ReadFault),
        Err(Stop::WriteFault) => return Err(Stop::WriteFault),
        _ => {}
    }
    match text.flush(out) {
        Put::Done => read,
        Put::Failed => Err(Stop::WriteFault),
    }
}
