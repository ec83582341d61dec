ghost use Rattle.std.specs.Prelude.{◌≡◌, ℕ, [], List, length};
ghost use Rattle.anc_words.specs.Packets.{AncillaryPacket};
ghost use Rattle.anc_words.specs.WordsFiles.{IsPacketBytes};
ghost use Rattle.cdp_packets.specs.Packets.{Frame};
ghost use Rattle.mcc_commands.specs.ExportSteps.{IsAnyPacket, IsCaptionPacket, StandsBehind, WritesCaption, WritesForeign};
ghost use Rattle.mcc_commands.specs.declared.start.Start.{Start as StartOf};

use crate::clock::Clock;
use crate::export_stop::MccStop;
use crate::said::{is_of_bytes, read};
use arrayvec::ArrayVec;
use cc_base::Rate;
use findings::{Finding, Kind45};
use mcc_files::{LINE, packet_line, words_line};

/// Writes the line of a packet that isn't of captions, after this many that are, into an empty `line`.
pub(crate) fn foreign_line(
    packet: &[u8],
    clock: &Clock,
    number: u32,
    line: &mut ArrayVec<u8, LINE>,
) -> Result<(), MccStop>
    requires packet { IsAnyPacket packet.now }
    requires empty { line.old.items ≡ [] }
    ensures { (is : AncillaryPacket) → IsPacketBytes is packet.now
        → WritesForeign clock.now number is line.new.items result }
{
    let said = read(packet);
    if !is_of_bytes(packet, &said) {
        let kind = Kind45::EightBits;
        return Err(MccStop::Found(Finding {
            frame: number,
            kind,
        }));
    }
    packet_line(
        clock.count(),
        clock.beside(),
        said.did,
        said.sdid,
        said.user(),
        line,
    );
    Ok(())
}

/// Writes the line of a packet of captions of this rate, after this many of captions, into an empty `line`.
pub(crate) fn caption_line(
    packet: &[u8],
    rate: Rate,
    clock: &mut Clock,
    number: u32,
    line: &mut ArrayVec<u8, LINE>,
) -> Result<(), MccStop>
    requires packet { IsCaptionPacket packet.now }
    requires empty { line.old.items ≡ [] }
    ensures { (start : StartOf) (frames : List Frame) (is : AncillaryPacket)
        → StandsBehind start frames clock.old → number ≡ length frames
        → IsPacketBytes is packet.now
        → WritesCaption start frames rate is clock.new line.new.items result }
{
    let frame = match clock.pass(rate, number) {
        Ok(frame) => frame,
        Err(why) => return Err(why),
    };
    words_line(clock.count(), frame, packet, line);
    Ok(())
}
