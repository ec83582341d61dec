ghost use Rattle.std.specs.Prelude.{◌++◌, [], List, map};
ghost use Rattle.std.specs.List.{flat_map};
ghost use Rattle.cdp_packets.specs.Packets.{Frame};
ghost use Rattle.line21_codes.specs.Reading.{code_of};
ghost use Rattle.line21_codes.specs.declared.channels.FieldNumber.TheVariants.{Two};
ghost use Rattle.line21_codes.specs.declared.pairs.Pair.{Pair};
ghost use Rattle.text_output.specs.Pages.{Adds, WritesSome, page};
ghost use Rattle.words_files.specs.Received.{received_pairs};
ghost use Rattle.xds_packets.specs.Reader.{HasRead};
ghost use Rattle.xds_packets.specs.Reading.{listed, packets_behind};
ghost use Rattle.words_commands.specs.Screens.{texts_behind};
ghost use Rattle.words_commands.specs.PacketLines.{next_packets, packet_line};

use cc_base::{Put, Sink};
use line21_codes::Pair;
use text_output::Gathered;
use words_reading::{Never, PerFrame, Receiver, Stop};
use xds_packets::{XdsPacket, XdsReader};

/// The packets of extended data that end in each frame.
#[derive(Drop)]
pub struct PacketLines {
    pub reader: XdsReader,
}

impl PacketLines {
    /// Reads the next pairs of field 2, and writes the line of each packet that ends in them.
    fn write_packets<O: Sink>(
        &mut self,
        pairs: &[Pair],
        frame: u32,
        text: &mut Gathered,
        out: &mut O,
    )
        ensures reads { (before : List Pair) → HasRead before self.old.reader
            → HasRead (before ++ pairs.now) self.new.reader }
        ensures writes { (before : List Pair) → HasRead before self.old.reader
            → Adds O.written O.faults text.old out.old text.new out.new
            (flat_map (packet_line frame)
            (packets_behind (map code_of before) (map code_of pairs.now))) }
        ensures some { WritesSome (page text.old (O.written out.old) (O.faults out.old))
            (page text.new (O.written out.new) (O.faults out.new)) }
    {
        for pair in pairs {
            let ended = self.reader.pair(*pair);
            write_ended(&ended, frame, text, out);
        }
    }
}

/// Writes the line of a packet, if there is one.
fn write_ended<O: Sink>(ended: &Option<XdsPacket>, frame: u32, text: &mut Gathered, out: &mut O)
    ensures { Adds O.written O.faults text.old out.old text.new out.new
        (flat_map (packet_line frame) (listed ended.now)) }
{
    if let Some(packet) = ended {
        write_packet(packet, frame, text, out);
    }
}

/// Writes the line of a packet that ended in a frame.
fn write_packet<O: Sink>(packet: &XdsPacket, frame: u32, text: &mut Gathered, out: &mut O)
    ensures { Adds O.written O.faults text.old out.old text.new out.new (packet_line frame packet.now) }
{
    text.write(b"frame ", out);
    text.write_number(frame, out);
    text.write(b" class ", out);
    text.write_number(u32::from(packet.class), out);
    text.write(b" type ", out);
    text.write_number(u32::from(packet.kind), out);
    text.write(b" ", out);
    text.write(packet.text.as_slice(), out);
    text.write(b"\n", out);
}

impl PerFrame for PacketLines {
    type Reason = Never;

    ghost Given = { Unit {0} };

    ghost text_of = { λ given. texts_behind next_packets [] };

    ghost AreFit = { λ given frames. Unit {0} };

    ghost Stands = { λ given frames lines. HasRead (received_pairs Two frames) lines.reader };

    ghost IsReason = { λ given frames last never. ⊥ };

    fn frame<O: Sink>(
        &mut self,
        receiver: &Receiver,
        number: u32,
        text: &mut Gathered,
        out: &mut O,
    ) -> Result<(), Stop<Never>> {
        text.begin();
        self.write_packets(receiver.pairs_two(), number, text, out);
        match text.answer() {
            Put::Done => Ok(()),
            Put::Failed => Err(Stop::WriteFault),
        }
    }

    ghost fit = { λ given frames lines stands. tt };
}
