ghost use Rattle.command_base.specs.Ends.{ends};
ghost use Rattle.words_commands.specs.PacketLines.{next_packets};
ghost use Rattle.words_commands.specs.Verdicts.{ChangesVerdict};
ghost use Rattle.command_base.specs.Realises.{RealisesLeaving};

use crate::count::put_count;
use crate::packet_lines::PacketLines;
use cc_base::{Put, Sink, Source};
use command_base::Status;
use std::alloc::Global;
use words_reading::{Frames, read_words};
use xds_packets::XdsReader;

/// Reads a words file, and puts the packets of extended data that end in each frame, and after the last one the number of frames.
pub fn run_xds_show<M: Source, O: Sink>(alloc: Global, input: &mut M, out: &mut O) -> Status
    ensures { RealisesLeaving (ChangesVerdict next_packets)
        (ends (M.left input.old) (M.faults input.old) (O.written out.old) (O.faults out.old))
        (ends (M.left input.new) (M.faults input.new) (O.written out.new)
        (O.faults out.new)) result }
{
    let reader = XdsReader::new();
    let Ok(mut frames) = Frames::new(alloc, PacketLines { reader }) else {
        return Status::Memory;
    };
    match read_words(&mut frames, input, out) {
        Ok(()) => match put_count(frames.count(), out) {
            Put::Done => Status::Ok,
            Put::Failed => Status::WriteFault,
        },
        Err(stop) => stop.plain_status(),
    }
}
