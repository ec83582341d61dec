ghost use Rattle.std.specs.Prelude.{◌≡◌, ◌+◌, ◌<◌, ◌≤◌, ℕ, [], All, length};
ghost use Rattle.channel_packets.specs.Writers.{HasWritten};
ghost use Rattle.frame_carrier.specs.FrameTriplets.{frame_triplets};
ghost use Rattle.words_files.specs.CarriedWords.{carried_words, triplets_packet};

use crate::triplets::{frame_triplets, ten_triplets, twenty_triplets};
use arrayvec::ArrayVec;
use cc_base::Rate;
use cc_data::{FIELD_1, FIELD_2, Triplet};
use channel_packets::PacketWriter;
use frame_scheduler::FrameBytes;
use words_files::write_triplets;

/// Carries the frames of a programme, one call a frame, in order from frame 0 on.
#[derive(Clone, Copy)]
pub struct Carrier {
    rate: Rate,
    counter: u16,
    writer: PacketWriter,
    ghost numbered: { HasWritten writer.number writer },
}

impl Carrier {
    ghost use Rattle.cc_base.specs.declared.rate.Rate.{Rate};
    ghost use Rattle.frame_carrier.specs.Carrying.{IsAt, channel_packet, frame_bytes, packet_count};

    /// A carrier for a programme of this rate, at its frame 0.
    pub fn new(rate: Rate) -> Carrier
        ensures { IsAt rate 0 0 result }
    {
        Carrier {
            rate,
            counter: 0,
            writer: PacketWriter::new(),
        }
    }

    /// The triplets of the next frame (CTA-708-E). They are one for each field in which it has a pair, its caption channel
    /// packet's, where it has service blocks, and triplets that don't count up to the rate's number.
    pub fn triplets(&mut self, frame: &FrameBytes) -> ArrayVec<Triplet, 31>
        ensures triplets { (rate : Rate) (number count : ℕ) → IsAt rate number count self.old
            → result.items ≡ frame_triplets rate frame.now
            (channel_packet count frame.now.blocks.items) }
        ensures kinds { All (λ t. t.kind < 4) result.items }
        ensures next { (rate : Rate) (number count : ℕ) → IsAt rate number count self.old
            → IsAt rate (number + 1) (count + packet_count frame.now.blocks.items) self.new }
    {
        let packet = self.channel_packet(&frame.blocks);
        self.pass();
        frame_triplets(self.rate, frame, &packet)
    }

    /// The bytes of the next frame's ancillary packet: its triplets in a caption distribution packet, whose counter is the
    /// frame's number modulo 65,536 (SMPTE ST 334-1 and ST 334-2).
    pub fn words(&mut self, frame: &FrameBytes) -> ArrayVec<u8, 524>
        ensures bytes { (rate : Rate) (number count : ℕ) → IsAt rate number count self.old
            → result.items ≡ frame_bytes rate number frame.now
            (channel_packet count frame.now.blocks.items) }
        ensures next { (rate : Rate) (number count : ℕ) → IsAt rate number count self.old
            → IsAt rate (number + 1) (count + packet_count frame.now.blocks.items) self.new }
    {
        let mut words = ArrayVec::new();
        self.put_words(frame, &mut words);
        words
    }

    /// Writes the bytes of the next frame's ancillary packet, those that `words` gives, into an empty `out`. A caller that
    /// puts each frame at once is spared the copying of the whole vector.
    pub fn put_words(&mut self, frame: &FrameBytes, out: &mut ArrayVec<u8, 524>)
        requires { out.old.items ≡ [] }
        ensures bytes { (rate : Rate) (number count : ℕ) → IsAt rate number count self.old
            → out.new.items ≡ frame_bytes rate number frame.now
            (channel_packet count frame.now.blocks.items) }
        ensures next { (rate : Rate) (number count : ℕ) → IsAt rate number count self.old
            → IsAt rate (number + 1) (count + packet_count frame.now.blocks.items) self.new }
    {
        let packet = self.channel_packet(&frame.blocks);
        let counter = self.counter;
        self.pass();
        if packet.is_empty() {
            put_pairs(self.rate, counter, frame, out);
        } else {
            let triplets = frame_triplets(self.rate, frame, &packet);
            put_counted(self.rate, counter, &triplets, out);
        }
    }

    /// The triplets of the next channel packet, which carries these service blocks; none where there are none.
    fn channel_packet(&mut self, blocks: &[u8]) -> ArrayVec<Triplet, 64>
        requires { length blocks.now ≤ 35 }
        ensures packet { (rate : Rate) (number count : ℕ) → IsAt rate number count self.old
            → result.items ≡ channel_packet count blocks.now }
        ensures next { (rate : Rate) (number count : ℕ) → IsAt rate number count self.old
            → IsAt rate number (count + packet_count blocks.now) self.new }
        ensures few { length result.items ≤ 18 }
        ensures kinds { All (λ t. t.kind < 4) result.items }
        ensures kept { (self.new.rate ≡ self.old.rate) × (self.new.counter ≡ self.old.counter) }
    {
        let mut packet = ArrayVec::new();
        if !blocks.is_empty() {
            self.writer.write(blocks, &mut packet);
        }
        packet
    }

    /// Passes to the next frame.
    fn pass(&mut self)
        ensures next { (rate : Rate) (number count : ℕ) → IsAt rate number count self.old
            → IsAt rate (number + 1) count self.new }
        ensures rate { self.new.rate ≡ self.old.rate }
    {
        self.counter = self.counter.wrapping_add(1);
    }
}

/// Writes the bytes of a frame without service blocks, with this counter, into an empty `out`. A frame with a pair in each field that it has a slot of has
/// an array of triplets, so the compiler knows how long its section, its packet and its words are.
fn put_pairs(rate: Rate, counter: u16, frame: &FrameBytes, out: &mut ArrayVec<u8, 524>)
    requires { out.old.items ≡ [] }
    ensures { out.new.items
        ≡ carried_words (triplets_packet rate counter (frame_triplets rate frame.now [])) }
{
    match (rate.triplets(), frame.one, frame.two) {
        (20, Some(one), Some(two)) => write_triplets(
            rate,
            counter,
            &twenty_triplets(one, two),
            out,
        ),
        (10, Some(one), None) => write_triplets(rate, counter, &ten_triplets(FIELD_1, one), out),
        (10, None, Some(two)) => write_triplets(rate, counter, &ten_triplets(FIELD_2, two), out),
        _ => write_triplets(rate, counter, &frame_triplets(rate, frame, &[]), out),
    }
}

/// Writes the ancillary packet of a distribution packet with these triplets into an empty `out`. Where they are as many as the
/// frames of a rate have they are an array, so the compiler knows how long their section, their packet and their words are.
fn put_counted(rate: Rate, counter: u16, triplets: &[Triplet], out: &mut ArrayVec<u8, 524>)
    requires few { length triplets.now ≤ 31 }
    requires kinds { All (λ t. t.kind < 4) triplets.now }
    requires empty { out.old.items ≡ [] }
    ensures { out.new.items ≡ carried_words (triplets_packet rate counter triplets.now) }
{
    if let Ok(twenty) = <&[Triplet; 20]>::try_from(triplets) {
        write_triplets(rate, counter, twenty, out);
    } else if let Ok(ten) = <&[Triplet; 10]>::try_from(triplets) {
        write_triplets(rate, counter, ten, out);
    } else {
        write_triplets(rate, counter, triplets, out);
    }
}
