ghost use Rattle.std.specs.Prelude.{ℕ, ◌<◌, ◌==◌, if◌then◌else◌, Some, None};
ghost use Rattle.cc_base.specs.declared.why.Why.TheVariants as why;
ghost use Rattle.service_blocks.specs.declared.parts.BlockPart.TheVariants as parts;

use cc_base::{Refusal, Resume, Step, Upward, Why};
use channel_packets::PacketPart;
use service_blocks::{BlockPart, BlockReader};
use std::alloc::Global;

// The parts that were handed upward. It refuses a byte EE.
#[derive(Drop)]
struct Seen {
    parts: Vec<BlockPart>,
}

impl Upward<BlockPart> for Seen {
    ghost Took = { λ handed seen. Unit {0} };

    ghost verdict = { λ handed part. elim part [
      | parts.Byte service value ↦ if value == 0xEE then Some why.Header else None
      | _ ↦ None
    ] };

    fn part(&mut self, part: BlockPart) -> Result<(), Why> {
        let _ = self.parts.push(part);
        if let BlockPart::Byte { value, .. } = part {
            if value == 0xEE {
                return Err(Why::Header);
            }
        }
        Ok(())
    }
}

// What a new reader answers to parts in pieces of this size, and what was handed upward.
fn read(alloc: Global, parts: &[PacketPart], size: usize) -> (Result<(), Refusal>, Seen)
    requires { 0 < size }
{
    let mut reader = BlockReader::new();
    let mut seen = Seen {
        parts: Vec::new(alloc),
    };
    let mut answer = Ok(());
    for piece in parts.chunks(size) {
        answer = reader.feed(piece, &mut seen);
    }
    (answer, seen)
}

// A packet of five bytes, and one of a byte after a gap.
const PACKETS: [PacketPart; 8] = [
    PacketPart::Header {
        gap: false,
        size: 5,
    },
    PacketPart::Byte {
        value: 0x24,
        left: 4,
    },
    PacketPart::Byte {
        value: 0x41,
        left: 3,
    },
    PacketPart::Byte {
        value: 0xEE,
        left: 2,
    },
    PacketPart::Byte {
        value: 0x43,
        left: 1,
    },
    PacketPart::Byte {
        value: 0x44,
        left: 0,
    },
    PacketPart::Header { gap: true, size: 1 },
    PacketPart::Byte {
        value: 0x00,
        left: 0,
    },
];

// The parts up to the one that is refused.
const HANDED: [BlockPart; 2] = [
    BlockPart::Byte {
        service: 1,
        value: 0x41,
    },
    BlockPart::Byte {
        service: 1,
        value: 0xEE,
    },
];

#[test]
fn a_refusal_of_the_layer_above_is_kept(rt: HostRuntime) {
    let refusal = Refusal {
        place: 3,
        why: Why::Header,
    };
    for size in [1, 2, 8] {
        let (answer, seen) = read(rt.alloc(), &PACKETS, size);
        assert!(rt; answer == Err(refusal) && seen.parts.as_slice() == HANDED.as_slice());
    }
}

#[test]
fn a_byte_that_skips_others_belongs_to_no_packet(rt: HostRuntime) {
    let mut reader = BlockReader::new();
    let header = PacketPart::Header {
        gap: false,
        size: 5,
    };
    assert!(rt; reader.step(header) == Step::Nothing);
    for (value, left, is_read) in [
        (0x23, 4, false),
        (0x41, 3, true),
        (0x42, 1, false),
        (0x43, 3, false),
        (0x44, 4, false),
        (0x45, 2, true),
        (0x46, 1, true),
    ] {
        let step = if is_read {
            Step::One(BlockPart::Byte { service: 1, value })
        } else {
            Step::Nothing
        };
        assert!(rt; reader.step(PacketPart::Byte { value, left }) == step);
    }
    // a block of one byte where none is left; the refusal is kept
    let mut reader = BlockReader::new();
    let header = PacketPart::Header {
        gap: false,
        size: 1,
    };
    assert!(rt; reader.step(header) == Step::Nothing);
    let block = PacketPart::Byte {
        value: 0x21,
        left: 0,
    };
    assert!(rt; reader.step(block) == Step::Refuse(Why::Overrun));
    let next = PacketPart::Header { gap: true, size: 1 };
    assert!(rt; reader.step(next) == Step::Refuse(Why::Overrun));
}
