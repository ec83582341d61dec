ghost use Rattle.std.specs.Prelude.{◌≡◌, All, ◌+◌, ◌-◌, ◌<◌, ◌≤◌, ◌++◌, [], ◌∷◌, Some, length, replicate};
ghost use Rattle.cc_base.specs.Rate.{triplets_in_frame};
ghost use Rattle.cc_data.specs.Triplets.{filler};
ghost use Rattle.frame_carrier.specs.FrameTriplets.{field_triplets, frame_triplets, pair_triplet};

use arrayvec::ArrayVec;
use cc_base::Rate;
use cc_data::{FIELD_1, FIELD_2, FILLER, Triplet};
use frame_scheduler::FrameBytes;
use line21_codes::Pair;

/// The triplets of a frame: one for each field in which it has a pair, its channel packet's, and triplets that don't
/// count up to the rate's number.
pub(crate) fn frame_triplets(
    rate: Rate,
    frame: &FrameBytes,
    packet: &[Triplet],
) -> ArrayVec<Triplet, 31>
    requires few { length packet.now ≤ 29 }
    requires kinds { All (λ t. t.kind < 4) packet.now }
    ensures triplets { result.items ≡ frame_triplets rate frame.now packet.now }
    ensures kinds { All (λ t. t.kind < 4) result.items }
{
    let mut triplets = ArrayVec::new();
    push_pair(FIELD_1, frame.one, &mut triplets);
    push_pair(FIELD_2, frame.two, &mut triplets);
    if triplets.try_extend_from_slice(packet).is_err() {
        unreachable!();
    }
    fill(rate.triplets(), &mut triplets);
    triplets
}

/// Appends the triplet of a field, if the frame has a pair in it.
fn push_pair(kind: u8, pair: Option<Pair>, triplets: &mut ArrayVec<Triplet, 31>)
    requires { length triplets.old.items < 31 }
    ensures { triplets.new.items ≡ triplets.old.items ++ field_triplets kind pair }
{
    if let Some(pair) = pair {
        triplets.push(pair_triplet(kind, pair));
    }
}

/// Appends triplets that don't count up to a number.
fn fill(number: u8, triplets: &mut ArrayVec<Triplet, 31>)
    requires { number ≤ 31 }
    ensures { triplets.new.items
        ≡ triplets.old.items ++ replicate (number - length triplets.old.items) filler }
{
    while triplets.len() < usize::from(number) {
        triplets.push(FILLER);
    }
}

/// The twenty triplets of a frame with a pair in each field.
pub(crate) fn twenty_triplets(one: Pair, two: Pair) -> [Triplet; 20]
    ensures { result ≡ pair_triplet 0 one ∷ pair_triplet 1 two ∷ replicate 18 filler }
{
    let mut triplets = [FILLER; 20];
    triplets[0] = pair_triplet(FIELD_1, one);
    triplets[1] = pair_triplet(FIELD_2, two);
    triplets
}

/// The ten triplets of a frame with a pair in the field of this kind alone.
pub(crate) fn ten_triplets(kind: u8, pair: Pair) -> [Triplet; 10]
    ensures { result ≡ pair_triplet kind pair ∷ replicate 9 filler }
{
    let mut triplets = [FILLER; 10];
    triplets[0] = pair_triplet(kind, pair);
    triplets
}

/// The triplet of a pair: it counts.
fn pair_triplet(kind: u8, pair: Pair) -> Triplet
    ensures { result ≡ pair_triplet kind pair }
{
    Triplet {
        valid: true,
        kind,
        a: pair.a,
        b: pair.b,
    }
}
