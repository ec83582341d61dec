ghost use Rattle.std.specs.Prelude.{◌≡◌, ◌≤◌, ℕ, true, List, [], IsTrue, length};
ghost use Rattle.std.specs.List.{concat, flat_map, list_all};
ghost use Rattle.cdp_packets.specs.Packets.{Frame as FrameOf};
ghost use Rattle.cdp_packets.specs.PacketParts.{packet_parts};
ghost use Rattle.cdp_packets.specs.PacketTriplets.{section_triplets};
ghost use Rattle.cdp_packets.specs.Sections.{AreSections};
ghost use Rattle.cdp_packets.specs.WholePackets.{SaysPacket};
ghost use Rattle.line21_codes.specs.declared.channels.FieldNumber.{FieldNumber};
ghost use Rattle.line21_codes.specs.NullPairs.{is_null};
ghost use Rattle.services_files.specs.Received.{field_kind, field_pair, field_pairs};
ghost use Rattle.cc_receiver.specs.Gathering.{Gathered, gather, pair_more, with_triplet};
ghost use Rattle.cc_receiver.specs.Idle.{are_null};
ghost use Rattle.cc_receiver.specs.Says.{AreOfSections};
ghost use Rattle.cc_receiver.specs.TripletLists.{HasTriplets};

use crate::triplets::Triplets;
use arrayvec::ArrayVec;
use cc_base::Rate;
use cc_data::{FIELD_1, FIELD_2, Triplet};
use cdp_packets::{CdpPart, WholePacket};
use line21_codes::Pair;

// Whether all pairs are null pairs: two bytes 00, with odd parity (CTA-608-E).
fn are_null(pairs: &[Pair]) -> bool
    ensures { result ≡ list_all is_null pairs.now }
{
    pairs.iter().all(|pair| pair.is_null())
}

// Puts the pair of a triplet, if it counts and is of this kind, after others, where there is room.
fn put_pair(triplet: Triplet, kind: u8, pairs: &mut ArrayVec<Pair, 81>)
    ensures { (in_field : FieldNumber) → kind ≡ field_kind in_field
        → pairs.new.items ≡ pair_more pairs.old.items (field_pair in_field triplet) }
{
    if triplet.valid && triplet.kind == kind {
        let _ = pairs.try_push(Pair {
            a: triplet.a,
            b: triplet.b,
        });
    }
}

// Puts the pairs of at most 81 triplets, of those that count and are of this kind, into an empty list.
fn put_pairs(triplets: &[Triplet], kind: u8, pairs: &mut ArrayVec<Pair, 81>)
    ensures { (in_field : FieldNumber) → kind ≡ field_kind in_field → length triplets.now ≤ 81
        → pairs.old.items ≡ []
        → pairs.new.items ≡ field_pairs in_field triplets.now }
{
    for triplet in triplets {
        put_pair(*triplet, kind, pairs);
    }
}

/// What a caption distribution packet says, gathered from its parts (SMPTE ST 334-2; CTA-708-E, cc_data()).
#[derive(Drop)]
pub(crate) struct Frame {
    pub(crate) rate: Rate,
    pub(crate) flags: u8,
    pub(crate) counter: u16,
    /// The bytes of the sections, one section after another. A packet has at most 255 bytes, eleven of them around the
    /// sections.
    pub(crate) sections: ArrayVec<u8, 244>,
    /// The triplets, in order.
    pub(crate) triplets: Triplets,
    /// The pairs of field 1 among the triplets that count, in order.
    pub(crate) pairs_one: ArrayVec<Pair, 81>,
    /// The pairs of field 2 among the triplets that count, in order.
    pub(crate) pairs_two: ArrayVec<Pair, 81>,
    /// Whether a whole packet was read: the triplets and the pairs are the sections'.
    pub(crate) whole: bool,
    pub ghost of_sections: { whole ≡ true → AreOfSections sections.items triplets pairs_one.items pairs_two.items },
}

impl Frame {
    ghost use Rattle.cc_receiver.specs.Gatherers.{HasGathered, Holds};

    /// A frame of no parts.
    pub(crate) fn new() -> Frame
        ensures { HasGathered [] result }
    {
        Frame {
            rate: Rate::F23976,
            flags: 0,
            counter: 0,
            sections: ArrayVec::new(),
            triplets: Triplets::new(),
            pairs_one: ArrayVec::new(),
            pairs_two: ArrayVec::new(),
            whole: false,
        }
    }

    /// Goes back to a frame of no parts.
    pub(crate) fn clear(&mut self)
        ensures { HasGathered [] self.new }
    {
        self.whole = false;
        self.rate = Rate::F23976;
        self.flags = 0;
        self.counter = 0;
        self.sections.clear();
        self.triplets.clear();
        self.pairs_one.clear();
        self.pairs_two.clear();
    }

    /// Whether it is of a whole packet with these bytes of sections. Then its triplets and its pairs are theirs.
    pub(crate) fn is_of(&self, sections: &[u8]) -> bool
        ensures { IsTrue result
            → AreOfSections sections.now self.now.triplets self.now.pairs_one.items self.now.pairs_two.items
            × (self.now.sections.items ≡ sections.now) }
    {
        self.whole && self.sections.as_slice() == sections
    }

    /// Says what a whole packet says, whose triplets these are.
    pub(crate) fn fill(&mut self, packet: WholePacket<'_>, triplets: &Triplets)
        requires few { length packet.sections.now ≤ 244 }
        requires triplets { (cut : List (List ℕ)) → AreSections cut
            → concat cut ≡ packet.sections.now
            → HasTriplets (flat_map section_triplets cut) triplets.now }
        ensures { (said : FrameOf) → AreSections said.sections → SaysPacket packet.entry said
            → HasGathered (packet_parts said) self.new }
    {
        self.whole = false;
        self.sections.clear();
        let _ = self.sections.try_extend_from_slice(packet.sections);
        self.triplets.copy_from(triplets);
        self.pairs_one.clear();
        put_pairs(triplets.front(), FIELD_1, &mut self.pairs_one);
        self.pairs_two.clear();
        put_pairs(triplets.front(), FIELD_2, &mut self.pairs_two);
        self.whole = true;
        self.head(packet);
    }

    /// Says what a whole packet says, of whose sections it is.
    pub(crate) fn head(&mut self, packet: WholePacket<'_>)
        requires few { length packet.sections.now ≤ 244 }
        requires sections { self.old.sections.items ≡ packet.sections.now }
        requires are { AreOfSections packet.sections.now self.old.triplets self.old.pairs_one.items self.old.pairs_two.items }
        ensures { (said : FrameOf) → AreSections said.sections → SaysPacket packet.entry said
            → HasGathered (packet_parts said) self.new }
    {
        self.rate = packet.rate;
        self.flags = packet.flags;
        self.counter = packet.counter;
    }

    /// Whether the pairs of both fields are null pairs.
    pub(crate) fn is_idle(&self) -> bool
        ensures { result ≡ are_null self.now.pairs_one.items self.now.pairs_two.items }
    {
        are_null(self.pairs_one.as_slice()) && are_null(self.pairs_two.as_slice())
    }

    // Takes the next triplet, and its pair where it counts and is of line 21.
    fn triplet(&mut self, triplet: Triplet)
        ensures { (gathered : Gathered) → Holds gathered self.old
            → Holds (with_triplet triplet gathered) self.new }
    {
        self.whole = false;
        self.triplets.push(triplet);
        put_pair(triplet, FIELD_1, &mut self.pairs_one);
        put_pair(triplet, FIELD_2, &mut self.pairs_two);
    }

    /// Takes the next part.
    pub(crate) fn gather(&mut self, part: CdpPart)
        ensures { (gathered : Gathered) → Holds gathered self.old
            → Holds (gather gathered part) self.new }
    {
        match part {
            CdpPart::Rate(rate) => self.rate = rate,
            CdpPart::Flags(flags) => self.flags = flags,
            CdpPart::Counter(counter) => self.counter = counter,
            CdpPart::SectionByte(byte) => {
                self.whole = false;
                let _ = self.sections.try_push(byte);
            }
            CdpPart::Triplet(triplet) => self.triplet(triplet),
            CdpPart::Half(_) | CdpPart::End => {}
        }
    }
}
