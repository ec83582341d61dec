ghost use Rattle.std.specs.Prelude.{◌≡◌};
ghost use Rattle.channel_packets.specs.ChannelPackets.{is_gap, size_of};
ghost use Rattle.channel_packets.specs.Reading.{Open, judge_bytes, nothing_open, packet_syntax};

use crate::parts::PacketPart;
use cc_base::{Machine, Step};
use cc_data::Triplet;

/// What is kept of a channel packet while it is read: none of its bytes, only its number and how many are left.
#[derive(Clone, Copy)]
pub(crate) struct OpenPacket {
    /// The number of the last packet, if there was one.
    pub(crate) last: Option<u8>,
    /// The number of its bytes that are left.
    pub(crate) left: u8,
}

// The number of the bytes that a packet has after this header.
fn size(header: u8) -> u8
    ensures { result ≡ size_of header }
{
    match header % 64 {
        0 => 127,
        half => 2 * half - 1,
    }
}

// The parts of two more bytes of a packet, where this many are left.
fn bytes(left: u8, first: u8, second: u8) -> Step<PacketPart>
    ensures { result ≡ judge_bytes left first second }
{
    let byte = |value: u8, left: u8| PacketPart::Byte { value, left };
    match left {
        0 => Step::Nothing,
        1 => Step::One(byte(first, 0)),
        _ => Step::Two(byte(first, left - 1), byte(second, left - 2)),
    }
}

impl OpenPacket {
    ghost use Rattle.channel_packets.specs.Readers.{Keeps};

    /// No packet has come.
    pub(crate) fn new() -> OpenPacket
        ensures { Keeps nothing_open result }
    {
        OpenPacket {
            last: None,
            left: 0,
        }
    }

    // Whether a packet is missing before the one of this number.
    fn is_gap(&self, number: u8) -> bool
        ensures { result ≡ is_gap self.now.last number }
    {
        match self.last {
            None => false,
            Some(last) => number != last.wrapping_add(1) % 4,
        }
    }
}

impl Machine<Triplet, PacketPart> for OpenPacket {
    ghost use Rattle.std.proofs.Common.{rules};
    ghost use Rattle.channel_packets.specs.Readers.{Keeps};

    ghost Given = { Unit {0} };

    ghost Front = { Open };

    ghost syntax = { λ given. packet_syntax };

    ghost Matches = { λ given front packet. Keeps front packet };

    ghost UNIT = { 1 };

    const UNIT: u64 = 1;

    fn step(&mut self, item: Triplet) -> Step<PacketPart> {
        match (item.valid, item.kind) {
            (true, 3) => {
                let number = item.a / 64;
                let gap = self.is_gap(number);
                let size = size(item.a);
                self.last = Some(number);
                self.left = size - 1;
                let header = PacketPart::Header { gap, size };
                let byte = PacketPart::Byte {
                    value: item.b,
                    left: self.left,
                };
                Step::Two(header, byte)
            }
            (true, 2) => {
                let step = bytes(self.left, item.a, item.b);
                self.left = self.left.saturating_sub(2);
                step
            }
            _ => Step::Nothing,
        }
    }

    ghost unit_is_positive = { Prim.search rules };

    ghost item_fits = { Prim.search rules };
}
