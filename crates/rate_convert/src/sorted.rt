ghost use Rattle.std.specs.Prelude.{◌≡◌, ◌≤◌, ◌<◌, ◌++◌, ◌&&◌, ◌==◌, List, [], ◌∷◌, IfNone, IfSome, if◌then◌else◌, length};
ghost use Rattle.cc_data.specs.declared.triplet.Triplet.{Triplet as TripletOf};
ghost use Rattle.cdp_packets.specs.Packets.{Frame};
ghost use Rattle.cdp_packets.specs.PacketTriplets.{packet_triplets};

use arrayvec::ArrayVec;
use cc_data::{FIELD_1, FIELD_2, PACKET_DATA, PACKET_START, Triplet};
use findings::MisfitKind;

/// The number of triplets of a frame at 29.97 (CTA-708-E, cc_data()).
pub(crate) const TWENTY: usize = 20;

/// The most triplets of channel packets that two frames at 59.94 have room for.
const MOST: usize = 18;

/// The triplets of a frame that count: field 1's, field 2's, and the channel packets', each in order.
#[derive(Drop)]
pub(crate) struct Sorted {
    pub(crate) ones: ArrayVec<Triplet, TWENTY>,
    pub(crate) twos: ArrayVec<Triplet, TWENTY>,
    pub(crate) channel: ArrayVec<Triplet, TWENTY>,
}

impl Sorted {
    ghost use Rattle.findings.specs.First.{IsFirstTried};
    ghost use Rattle.rate_convert.specs.Misfits.{Holds, rank};
    ghost use Rattle.rate_convert.specs.SortedTriplets.{AreSorted, IsFull};

    // No triplets.
    fn new() -> Sorted
        ensures { AreSorted [] result }
    {
        Sorted {
            ones: ArrayVec::new(),
            twos: ArrayVec::new(),
            channel: ArrayVec::new(),
        }
    }

    /// The twenty triplets of a frame, sorted.
    pub(crate) fn of(triplets: &[Triplet]) -> Sorted
        requires { length triplets.now ≡ 20 }
        ensures { AreSorted triplets.now result }
    {
        let mut sorted = Sorted::new();
        for triplet in triplets {
            sorted.add(*triplet);
        }
        sorted
    }

    // One more triplet, after the others.
    fn add(&mut self, triplet: Triplet)
        requires ones { length self.old.ones.items < 20 }
        requires twos { length self.old.twos.items < 20 }
        requires channel { length self.old.channel.items < 20 }
        ensures { (triplets : List TripletOf) → AreSorted triplets self.old
            → AreSorted (triplets ++ triplet ∷ []) self.new }
    {
        let of_channel = has_kind(triplet, PACKET_START) | has_kind(triplet, PACKET_DATA);
        keep_if(has_kind(triplet, FIELD_1), triplet, &mut self.ones);
        keep_if(has_kind(triplet, FIELD_2), triplet, &mut self.twos);
        keep_if(of_channel, triplet, &mut self.channel);
    }

    /// Why a frame of these triplets can't be converted for its triplets' sake, if it can't, where it is at 29.97 and has twenty.
    pub(crate) fn misfit(&self) -> Option<MisfitKind>
        ensures ones { IfNone result (length self.now.ones.items ≤ 1) }
        ensures twos { IfNone result (length self.now.twos.items ≤ 1) }
        ensures channel { IfNone result (length self.now.channel.items ≤ 18) }
        ensures some { (earlier : List Frame) (frame : Frame) → IsFull frame
            → AreSorted (packet_triplets frame) self.now → IfSome result (IsFirstTried (Holds earlier frame) rank) }
    {
        if self.ones.len() > 1 {
            Some(MisfitKind::One(self.ones.len() as u16))
        } else if self.twos.len() > 1 {
            Some(MisfitKind::Two(self.twos.len() as u16))
        } else if self.channel.len() > MOST {
            Some(MisfitKind::Many(self.channel.len() as u16))
        } else {
            None
        }
    }
}

// Whether a triplet counts and has this kind.
fn has_kind(triplet: Triplet, kind: u8) -> bool
    ensures { result ≡ (triplet.valid && (triplet.kind == kind)) }
{
    triplet.valid && triplet.kind == kind
}

// Puts a triplet after others, or leaves it out.
fn keep_if(keep: bool, triplet: Triplet, kept: &mut ArrayVec<Triplet, 20>)
    requires { length kept.old.items < 20 }
    ensures { kept.new.items ≡ (if keep then kept.old.items ++ triplet ∷ [] else kept.old.items) }
{
    if keep {
        kept.push(triplet);
    }
}
