ghost use Rattle.std.specs.Prelude.{◌≡◌, ◌≤◌, ◌<◌, ◌+◌, ◌*◌, ◌++◌, ◌∷◌, [], ℕ, List, All, false, get_or, length};
ghost use Rattle.arrayvec.specs.ArrayVec.{array_vec_len};
ghost use Rattle.cc_base.specs.declared.rate.Rate.TheVariants as rate;
ghost use Rattle.cc_data.specs.Triplets.{filler};
ghost use Rattle.cc_data.specs.declared.triplet.Triplet.{Triplet as TripletOf};
ghost use Rattle.cc_receiver.specs.ReceivedServices.{received_windows};
ghost use Rattle.cdp_packets.specs.Packets.{Frame};
ghost use Rattle.dtvcc_services.specs.Numbers.{IsService};
ghost use Rattle.dtvcc_services.specs.Objects.{all_ticks};
ghost use Rattle.rate_convert.specs.Conversion.{first_half, second_half, ten_triplets};
ghost use Rattle.rate_convert.specs.ServedFrames.{AreNext, AreServed};
ghost use Rattle.rate_convert.specs.SortedTriplets.{AreSorted, IsSorted};
ghost use Rattle.words_files.specs.CarriedWords.{carried_words, triplets_packet};

use crate::sorted::Sorted;
use arrayvec::ArrayVec;
use cc_base::Rate;
use cc_data::{FILLER, Triplet};
use cc_receiver::Served;
use words_files::write_triplets;

/// The most triplets of channel packets of a half.
const MOST: usize = 9;

/// The triplets of the two frames at 59.94 that a frame becomes (CTA-708-E, cc_data()).
#[derive(Clone, Copy)]
pub(crate) struct Halves {
    pub(crate) first: [Triplet; 10],
    pub(crate) second: [Triplet; 10],
}

impl Halves {
    /// The halves of sorted triplets, of which at most eighteen are of channel packets.
    pub(crate) fn of(sorted: &Sorted) -> Halves
        requires sorted { IsSorted sorted.now }
        requires few { length sorted.now.channel.items ≤ 18 }
        ensures halves { (triplets : List TripletOf) → AreSorted triplets sorted.now
            → (result.first ≡ first_half triplets) × (result.second ≡ second_half triplets) }
        ensures kinds { All (λ t. t.kind < 4) result.first × All (λ t. t.kind < 4) result.second }
    {
        Halves {
            first: first_half(sorted),
            second: second_half(sorted),
        }
    }

    /// The bytes of the ancillary packets of both, where the frame has this number: its first half has twice the number, and its second
    /// one more (SMPTE ST 334-1 and ST 334-2).
    pub(crate) fn words(&self, frame: u32) -> ArrayVec<u8, 200>
        requires { All (λ t. t.kind < 4) self.now.first × All (λ t. t.kind < 4) self.now.second }
        ensures { result.items ≡ carried_words (triplets_packet rate.F5994 (2 * frame) self.now.first)
            ++ carried_words (triplets_packet rate.F5994 (2 * frame + 1) self.now.second) }
    {
        let counter = 2 * (frame % 32_768) as u16;
        let mut words = ArrayVec::new();
        put_half(counter, &self.first, &mut words);
        put_half(counter + 1, &self.second, &mut words);
        words
    }

    /// Services take both, one after the other. Says whether something that is seen of a service may have changed.
    pub(crate) fn serve(&self, served: &mut Served) -> bool
        ensures served { (frames : List Frame) (one two : Frame)
            → AreNext frames served.old self.now.first self.now.second one two
            → AreServed ((frames ++ one ∷ []) ++ two ∷ []) served.new }
        ensures same { (frames : List Frame) (one two : Frame)
            → AreNext frames served.old self.now.first self.now.second one two
            → result ≡ false → (service id : ℕ) → IsService service
            → received_windows ((frames ++ one ∷ []) ++ two ∷ []) service id
            ≡ received_windows frames service id }
        ensures ticks { all_ticks served.old.services + 1 < 4294967295
            → all_ticks served.new.services ≡ all_ticks served.old.services + 2 }
    {
        served.frame(Rate::F5994, &self.first);
        let first = served.is_touched();
        served.frame(Rate::F5994, &self.second);
        let second = served.is_touched();
        first | second
    }
}

// The triplets of the first half: field 1's, and the first nine of channel packets.
fn first_half(sorted: &Sorted) -> [Triplet; 10]
    ensures { (triplets : List TripletOf) → AreSorted triplets sorted.now
        → result ≡ first_half triplets }
{
    let channel = sorted.channel.as_slice();
    let cut = channel.len().min(MOST);
    ten_triplets(&sorted.ones, &channel[..cut])
}

// The triplets of the second half: field 2's, and the others of channel packets, of which there are eighteen at most.
fn second_half(sorted: &Sorted) -> [Triplet; 10]
    requires { length sorted.now.channel.items ≤ 18 }
    ensures { (triplets : List TripletOf) → AreSorted triplets sorted.now
        → result ≡ second_half triplets }
{
    let channel = sorted.channel.as_slice();
    let cut = channel.len().min(MOST);
    ten_triplets(&sorted.twos, &channel[cut..])
}

// The ten triplets of a half: a field's first one, if there is one, and the channel packets', of which there are at most nine.
fn ten_triplets(field: &[Triplet], channel: &[Triplet]) -> [Triplet; 10]
    requires few { length channel.now ≤ 9 }
    ensures { result ≡ ten_triplets field.now channel.now }
{
    let mut triplets = [FILLER; 10];
    triplets[0] = first_or_filler(field);
    let behind = channel.len() + 1;
    triplets[1..behind].copy_from_slice(channel);
    triplets
}

// The first of triplets, or one that doesn't count where there is none.
fn first_or_filler(triplets: &[Triplet]) -> Triplet
    ensures { result ≡ get_or triplets.now 0 filler }
{
    match triplets {
        [first, ..] => *first,
        [] => FILLER,
    }
}

// Puts the bytes of the ancillary packet of a half after others, by the low 16 bits of its frame number and its triplets.
fn put_half(counter: u16, triplets: &[Triplet; 10], out: &mut ArrayVec<u8, 200>)
    requires kinds { All (λ t. t.kind < 4) triplets.now }
    requires room { array_vec_len out.old ≤ 100 }
    ensures bytes { out.new.items ≡ out.old.items
        ++ carried_words (triplets_packet rate.F5994 counter triplets.now) }
    ensures len { array_vec_len out.new ≡ array_vec_len out.old + 100 }
{
    let mut words = ArrayVec::new();
    write_half(counter, triplets, &mut words);
    append(&words, out);
}

// Writes the bytes of the ancillary packet of a half into an empty `out`. Within `put_half` the compiler would clear its rooms once more.
fn write_half(counter: u16, triplets: &[Triplet; 10], out: &mut ArrayVec<u8, 524>)
    requires kinds { All (λ t. t.kind < 4) triplets.now }
    requires empty { out.old.items ≡ [] }
    ensures { out.new.items ≡ carried_words (triplets_packet rate.F5994 counter triplets.now) }
{
    write_triplets(Rate::F5994, counter, triplets, out);
}

// Puts the hundred bytes of a packet after others.
fn append(packet: &ArrayVec<u8, 524>, out: &mut ArrayVec<u8, 200>)
    requires size { array_vec_len packet.now ≡ 100 }
    requires room { array_vec_len out.old ≤ 100 }
    ensures bytes { out.new.items ≡ out.old.items ++ packet.now.items }
    ensures len { array_vec_len out.new ≡ array_vec_len out.old + 100 }
{
    if out.try_extend_from_slice(packet).is_err() {
        unreachable!();
    }
}
