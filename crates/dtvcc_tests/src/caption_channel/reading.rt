ghost use Rattle.std.specs.Prelude.{ℕ, ◌<◌, ◌==◌, if◌then◌else◌, Some, None};
ghost use Rattle.cc_base.specs.declared.why.Why.TheVariants as why;
ghost use Rattle.channel_packets.specs.declared.parts.PacketPart.TheVariants as parts;

use cc_base::{Refusal, Resume, Upward, Why};
use cc_data::{Triplet, read_triplet};
use channel_packets::{PacketPart, PacketReader};
use std::alloc::Global;

// The parts that were handed upward. It refuses a byte EE.
#[derive(Drop)]
struct Seen {
    parts: Vec<PacketPart>,
}

impl Upward<PacketPart> for Seen {
    ghost Took = { λ handed seen. Unit {0} };

    ghost verdict = { λ handed part. elim part [
      | parts.Byte value left ↦ if value == 0xEE then Some why.Overrun else None
      | _ ↦ None
    ] };

    fn part(&mut self, part: PacketPart) -> Result<(), Why> {
        let _ = self.parts.push(part);
        if let PacketPart::Byte { value, .. } = part {
            if value == 0xEE {
                return Err(Why::Overrun);
            }
        }
        Ok(())
    }
}

// What a new reader answers to triplets in pieces of this size, and what was handed upward.
fn read(alloc: Global, triplets: &[Triplet], size: usize) -> (Result<(), Refusal>, Seen)
    requires { 0 < size }
{
    let mut reader = PacketReader::new();
    let mut seen = Seen {
        parts: Vec::new(alloc),
    };
    let mut answer = Ok(());
    for piece in triplets.chunks(size) {
        answer = reader.feed(piece, &mut seen);
    }
    (answer, seen)
}

// The parts up to the one that is refused.
const HANDED: [PacketPart; 3] = [
    PacketPart::Header {
        gap: false,
        size: 3,
    },
    PacketPart::Byte {
        value: 0x11,
        left: 2,
    },
    PacketPart::Byte {
        value: 0xEE,
        left: 1,
    },
];

#[test]
fn a_refusal_of_the_layer_above_is_kept(rt: HostRuntime) {
    let triplets = [
        read_triplet([0xFF, 0x02, 0x11]),
        read_triplet([0xFE, 0xEE, 0x13]),
        read_triplet([0xFF, 0x41, 0x21]),
    ];
    let refusal = Refusal {
        place: 1,
        why: Why::Overrun,
    };
    for size in [1, 2, 3] {
        let (answer, seen) = read(rt.alloc(), &triplets, size);
        assert!(rt; answer == Err(refusal) && seen.parts.as_slice() == HANDED.as_slice());
    }
}
