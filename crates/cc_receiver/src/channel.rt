ghost use Rattle.std.specs.Prelude.{◌≡◌, ◌++◌, ◌||◌, false, List, [], ◌∷◌, None, IsTrue};
ghost use Rattle.cc_base.specs.Steps.{step_why};
ghost use Rattle.cc_base.specs.Syntax.{open_behind};
ghost use Rattle.cc_data.specs.declared.triplet.Triplet.{Triplet as TripletOf};
ghost use Rattle.cdp_packets.specs.declared.parts.CdpPart.{CdpPart as Part};
ghost use Rattle.channel_packets.specs.ChannelPackets.{continues_packet, starts};
ghost use Rattle.channel_packets.specs.declared.parts.PacketPart.{PacketPart as Piece};
ghost use Rattle.service_blocks.specs.Readers.{HasRead};
ghost use Rattle.service_blocks.specs.Reading.{block_syntax, judge_part};
ghost use Rattle.services_files.specs.Services.{services_say, why_unheard};

use cc_base::{Step, Why};
use cc_data::{PACKET_DATA, PACKET_START, Triplet};
use cdp_packets::CdpPart;
use channel_packets::{PacketPart, PacketReader};
use service_blocks::BlockReader;

/// Whether a triplet counts and is one of channel packets, and not of line 21.
pub(crate) fn is_of_channel(triplet: Triplet) -> bool
    ensures { result ≡ (starts triplet || continues_packet triplet) }
{
    triplet.valid && (triplet.kind == PACKET_START || triplet.kind == PACKET_DATA)
}

/// The readers of the caption channel: of its packets, and of the service blocks in them (CTA-708-E, sections 5 and 6). They judge
/// what the frames carry of it, and hand nothing on.
#[derive(Clone, Copy)]
pub(crate) struct Channel {
    pub(crate) packets: PacketReader,
    pub(crate) blocks: BlockReader,
}

impl Channel {
    ghost use Rattle.cc_receiver.specs.Channels.{HasHeard, HasTried};

    /// Readers that took nothing.
    pub(crate) fn new() -> Channel
        ensures { HasHeard [] result }
    {
        Channel {
            packets: PacketReader::new(),
            blocks: BlockReader::new(),
        }
    }

    // Takes the next part of a channel packet, and says why it is refused, if it is.
    fn piece(&mut self, piece: PacketPart) -> Option<Why>
        ensures why { (pieces : List Piece) → HasRead pieces self.old.blocks
            → result ≡ step_why (judge_part (open_behind block_syntax pieces) piece) }
        ensures read { (pieces : List Piece) → HasRead pieces self.old.blocks → result ≡ None
            → HasRead (pieces ++ piece ∷ []) self.new.blocks }
        ensures packets { self.new.packets ≡ self.old.packets }
    {
        match self.blocks.step(piece) {
            Step::Refuse(why) => Some(why),
            Step::Nothing | Step::One(_) | Step::Two(..) => None,
        }
    }

    /// Takes the next triplet, and says why it is refused, if it is: where a header of a service block in it passes its packet.
    #[inline(always)]
    pub(crate) fn take(&mut self, triplet: Triplet) -> Option<Why>
        ensures why { (before : List TripletOf) → HasHeard before self.old
            → result ≡ why_unheard before (triplet ∷ []) }
        ensures heard { (before : List TripletOf) → HasHeard before self.old → result ≡ None
            → HasHeard (before ++ triplet ∷ []) self.new }
    {
        if !is_of_channel(triplet) {
            return None;
        }
        match self.packets.step(triplet) {
            Step::Nothing | Step::Refuse(_) => None,
            Step::One(piece) => self.piece(piece),
            Step::Two(first, second) => match self.piece(first) {
                None => self.piece(second),
                Some(why) => Some(why),
            },
        }
    }

    /// Judges the next part of a distribution packet, and says why it is refused, if it is. A triplet is tried on a copy as soon as
    /// its second byte has come, so that a header in it is refused at its own byte; it is taken when it is whole.
    pub(crate) fn judge(&mut self, part: CdpPart) -> Option<Why>
        ensures why { (before : List Part) → HasTried before self.old
            → result ≡ services_say before part }
        ensures tried { (before : List Part) → HasTried before self.old → result ≡ None
            → HasTried (before ++ part ∷ []) self.new }
    {
        match part {
            CdpPart::Half(triplet) => {
                let mut trial = *self;
                trial.take(triplet)
            }
            CdpPart::Triplet(triplet) => self.take(triplet),
            CdpPart::Rate(_)
            | CdpPart::Flags(_)
            | CdpPart::Counter(_)
            | CdpPart::SectionByte(_)
            | CdpPart::End => None,
        }
    }

    /// Takes triplets, up to one that is refused, and says whether none is.
    pub(crate) fn takes(&mut self, triplets: &[Triplet]) -> bool
        ensures { (before : List TripletOf) → HasHeard before self.old → IsTrue result
            → HasHeard (before ++ triplets.now) self.new }
    {
        for triplet in triplets {
            if self.take(*triplet).is_some() {
                return false;
            }
        }
        true
    }
}
