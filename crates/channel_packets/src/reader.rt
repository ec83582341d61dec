ghost use Rattle.std.specs.Prelude.{◌≡◌, ◌++◌, [], ◌∷◌, Some, None, List};
ghost use Rattle.cc_base.specs.declared.refusal.Refusal.{Refusal as Refused};
ghost use Rattle.cc_base.specs.declared.step.Step.TheVariants.{Refuse};
ghost use Rattle.cc_base.specs.Feeding.{place_by};
ghost use Rattle.cc_base.specs.Syntax.{judge_by, open_behind};
ghost use Rattle.cc_data.specs.declared.triplet.Triplet.{Triplet as Three};
ghost use Rattle.channel_packets.specs.Reading.{judge_triplet, packet_syntax};

use crate::open_packet::OpenPacket;
use crate::parts::PacketPart;
use cc_base::{Fed, Refusal, Resume, Step, Upward};
use cc_data::Triplet;

/// Reads the triplets of cc_data of a file, in any pieces, and hands the parts of its caption channel packets upward
/// (CTA-708-E, section 5).
///
/// A triplet of kind 3 starts a packet and ends the one before, whole or not; triplets of kind 2 carry its further bytes, and
/// belong to no packet where none is open. Triplets that don't count, and line 21's, are passed over. The reader
/// refuses nothing: a refusal is one of the layer above, and its place is the number of the triplet. It keeps the last
/// packet's number and how many of its bytes are left, and none of the bytes.
#[derive(Clone, Copy)]
pub struct PacketReader {
    fed: Fed<OpenPacket>,
}

impl PacketReader {
    ghost use Rattle.channel_packets.specs.Readers.{HasRead, kept_refusal};

    /// A reader that was fed nothing.
    pub fn new() -> PacketReader
        ensures { HasRead [] result }
    {
        PacketReader {
            fed: Fed::new(OpenPacket::new()),
        }
    }

    /// Reads the next triplet, and gives the parts that it makes in place of handing them upward: what `feed` makes of it under
    /// a layer that takes them. After a refusal of such a layer, that is the answer, and nothing is read.
    pub fn step(&mut self, triplet: Triplet) -> Step<PacketPart>
        ensures says { (triplets : List Three) → HasRead triplets self.old
            → result ≡ judge_triplet (open_behind packet_syntax triplets) triplet }
        ensures leads { (triplets : List Three) → HasRead triplets self.old
            → HasRead (triplets ++ triplet ∷ []) self.new }
        ensures kept { (refused : Refused) → kept_refusal self.old ≡ Some refused
            → (result ≡ Refuse refused.why) × (self.new ≡ self.old) }
    {
        self.fed.step(triplet)
    }
}

impl Resume<Triplet, PacketPart> for PacketReader {
    ghost use Rattle.std.proofs.Common.{rules};
    ghost use Rattle.channel_packets.specs.Readers.{HasRead, kept_refusal};

    ghost Given = { Unit {0} };

    ghost judge = { λ given. judge_by packet_syntax };

    ghost place = { place_by 1 };

    ghost Leads = { λ given triplets reader. HasRead triplets reader };

    ghost refusal = { λ reader. kept_refusal reader };

    fn feed<U: Upward<PacketPart>>(
        &mut self,
        input: &[Triplet],
        up: &mut U,
    ) -> Result<(), Refusal> {
        self.fed.feed(input, up)
    }

    ghost is_open = { λ given triplets reader led. led.unrefused };

    ghost item_fits = { Prim.search rules };
}
