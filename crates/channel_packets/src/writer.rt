ghost use Rattle.std.specs.Prelude.{◌≡◌, ℕ, ◌+◌, ◌/◌, ◌%◌, ◌<◌, ◌≤◌, ◌++◌, [], true, length};
ghost use Rattle.arrayvec.specs.ArrayVec.{array_vec_len};
ghost use Rattle.channel_packets.specs.Written.{bytes_written, packet_written};

use arrayvec::ArrayVec;
use cc_data::{PACKET_DATA, PACKET_START, Triplet};

/// Writes the service blocks of frames as caption channel packets (CTA-708-E, section 5), and numbers these.
#[derive(Clone, Copy)]
pub struct PacketWriter {
    // The number of the next packet.
    number: u8,
    ghost two_bits: { number < 4 },
}

impl PacketWriter {
    ghost use Rattle.channel_packets.specs.Writers.{HasWritten};

    /// A writer that wrote no packet.
    pub fn new() -> PacketWriter
        ensures { HasWritten 0 result }
    {
        PacketWriter { number: 0 }
    }

    /// Writes the next packet into an empty `out`. It has 1 to 127 bytes of service blocks; an even number of them is completed
    /// by a byte 00, which ends the blocks. The packets are numbered 0, 1, 2, 3, 0 and so on.
    pub fn write(&mut self, blocks: &[u8], out: &mut ArrayVec<Triplet, 64>)
        requires some { 1 ≤ length blocks.now }
        requires few { length blocks.now ≤ 127 }
        requires empty { out.old.items ≡ [] }
        ensures written { (count : ℕ) → HasWritten count self.old
            → out.new.items ≡ packet_written (count % 4) blocks.now }
        ensures next { (count : ℕ) → HasWritten count self.old → HasWritten (count + 1) self.new }
    {
        let header = 64 * self.number + (blocks.len() / 2 + 1) as u8 % 64;
        out.push(triplet(PACKET_START, header, blocks[0]));
        write_bytes(&blocks[1..], out);
        self.number = (self.number + 1) % 4;
    }
}

// Appends further bytes of a packet, two in a triplet.
fn write_bytes(bytes: &[u8], out: &mut ArrayVec<Triplet, 64>)
    requires { array_vec_len out.old + (length bytes.now + 1) / 2 ≤ 64 }
    ensures { out.new.items ≡ out.old.items ++ bytes_written bytes.now }
{
    let (pairs, last) = bytes.as_chunks::<2>();
    for [first, second] in pairs {
        out.push(triplet(PACKET_DATA, *first, *second));
    }
    match last {
        [] => {}
        [first, ..] => out.push(triplet(PACKET_DATA, *first, 0)),
    }
}

// A triplet that counts.
#[inline]
fn triplet(kind: u8, a: u8, b: u8) -> Triplet
    ensures { result ≡ record { valid = true; kind = kind; a = a; b = b } }
{
    Triplet {
        valid: true,
        kind,
        a,
        b,
    }
}
