ghost use Rattle.std.specs.Prelude.{◌≡◌, ℕ, ◌+◌, ◌≤◌, ◌++◌, false, List, [], IsTrue, length, take};
ghost use Rattle.std.specs.List.{concat, flat_map};
ghost use Rattle.cc_data.specs.declared.triplet.Triplet.{Triplet as TripletOf};
ghost use Rattle.cc_data.specs.Triplets.{triplets_of};
ghost use Rattle.cdp_packets.specs.PacketTriplets.{section_triplets};
ghost use Rattle.cdp_packets.specs.Sections.{AreSections};
ghost use Rattle.cc_receiver.specs.Gathering.{one_more};
ghost use Rattle.cc_receiver.specs.Counting.{HasFront, with_more};

use crate::filling::{FILLERS, MOST, count_fillers};
use cc_data::{Triplet, read_triplet};
use cdp_packets::{split_section, triplet_bytes};

/// The triplets of a packet, in order. A packet has at most 255 bytes, eleven of them around the sections, and three are a triplet.
///
/// They stand in the value itself, and the previous packet's are written over: to clear them and to copy them costs no more than
/// there are.
#[derive(Drop)]
pub(crate) struct Triplets {
    cells: [Triplet; MOST],
    // how many there are
    len: usize,
    // how many there are down to the last one that counts
    until: usize,
    ghost few: { len ≤ 81 },
    ghost within: { until ≤ len },
}

impl Triplets {
    ghost use Rattle.cc_receiver.specs.TripletLists.{HasTriplets};

    /// No triplets.
    #[inline(always)]
    pub(crate) fn new() -> Triplets
        ensures { HasTriplets [] result }
    {
        Triplets {
            cells: FILLERS,
            len: 0,
            until: 0,
        }
    }

    /// Goes back to no triplets.
    pub(crate) fn clear(&mut self)
        ensures none { HasTriplets [] self.new }
        ensures len { self.new.len ≡ 0 }
    {
        self.len = 0;
        self.until = 0;
    }

    /// The triplets.
    pub(crate) fn as_slice(&self) -> &[Triplet]
        ensures triplets { (triplets : List TripletOf) → HasTriplets triplets self.now
            → result.now ≡ triplets }
        ensures few { length result.now ≤ 81 }
        ensures items { result.now ≡ take self.now.len self.now.cells }
    {
        &self.cells[..self.len]
    }

    /// The triplets down to the last one that counts.
    pub(crate) fn front(&self) -> &[Triplet]
        ensures { (triplets : List TripletOf) → HasTriplets triplets self.now
            → HasFront result.now triplets }
    {
        &self.cells[..self.until]
    }

    /// Becomes the same as others.
    pub(crate) fn copy_from(&mut self, other: &Triplets)
        ensures { (triplets : List TripletOf) → HasTriplets triplets other.now
            → HasTriplets triplets self.new }
    {
        self.clear();
        self.append(other.as_slice());
        self.until = other.until;
    }

    // Puts triplets after the others, none of which is known to count.
    fn append(&mut self, triplets: &[Triplet])
        requires { self.old.len + length triplets.now ≤ 81 }
        ensures items { take self.new.len self.new.cells
            ≡ take self.old.len self.old.cells ++ triplets.now }
        ensures len { self.new.len ≡ self.old.len + length triplets.now }
        ensures until { self.new.until ≡ self.old.until }
    {
        let behind = self.len + triplets.len();
        self.cells[self.len..behind].copy_from_slice(triplets);
        self.len = behind;
    }

    /// Becomes the triplets of sections, read in one pass.
    pub(crate) fn read(&mut self, sections: &[u8])
        ensures { (cut : List (List ℕ)) → AreSections cut → concat cut ≡ sections.now
            → length sections.now ≤ 244
            → HasTriplets (flat_map section_triplets cut) self.new }
    {
        self.clear();
        self.take_sections(sections);
    }

    // Takes the triplets of sections.
    fn take_sections(&mut self, sections: &[u8])
        ensures { (triplets : List TripletOf) (cut : List (List ℕ)) → AreSections cut
            → concat cut ≡ sections.now → HasTriplets triplets self.old
            → HasTriplets (with_more triplets (flat_map section_triplets cut)) self.new }
    {
        let mut rest = sections;
        while let Some((section, behind)) = split_section(rest) {
            self.take_bytes(triplet_bytes(section));
            rest = behind;
        }
    }

    // Takes the triplets of these bytes.
    fn take_bytes(&mut self, bytes: &[u8])
        ensures { (triplets : List TripletOf) → HasTriplets triplets self.old
            → HasTriplets (with_more triplets (triplets_of bytes.now)) self.new }
    {
        let mut rest = bytes;
        while let Some((triplet, more)) = rest.split_first_chunk::<3>() {
            if self.fill_up(rest) {
                return;
            }
            self.push(read_triplet(*triplet));
            rest = more;
        }
    }

    // Takes the triplets of these bytes where all of them are fillers and there is room, and says whether it did.
    fn fill_up(&mut self, bytes: &[u8]) -> bool
        ensures took { (triplets : List TripletOf) → IsTrue result → HasTriplets triplets self.old
            → HasTriplets (with_more triplets (triplets_of bytes.now)) self.new }
        ensures none { result ≡ false → self.new ≡ self.old }
    {
        match count_fillers(bytes) {
            Some(count) if count <= MOST - self.len => {
                self.append(&FILLERS[..count]);
                true
            }
            _ => false,
        }
    }

    /// Takes the next triplet, where there is room.
    #[inline]
    pub(crate) fn push(&mut self, triplet: Triplet)
        ensures { (triplets : List TripletOf) → HasTriplets triplets self.old
            → HasTriplets (one_more 81 triplets triplet) self.new }
    {
        self.put(triplet);
        if triplet.valid {
            self.until = self.len;
        }
    }

    // Puts a triplet after the others, where there is room, and doesn't tell whether it counts.
    #[inline]
    fn put(&mut self, triplet: Triplet)
        ensures items { take self.new.len self.new.cells
            ≡ one_more 81 (take self.old.len self.old.cells) triplet }
        ensures until { self.new.until ≡ self.old.until }
        ensures len { self.new.len ≡ length (take self.new.len self.new.cells) }
    {
        if self.len < MOST {
            self.cells[self.len] = triplet;
            self.len += 1;
        }
    }
}
