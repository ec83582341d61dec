//! Laws of the definitions: functions without a body, whose contract is the law.

ghost use Rattle.std.specs.Prelude.{◌≡◌, ℕ, ◌*◌, ◌<◌, ◌++◌, List, All, length};
ghost use Rattle.cc_data.specs.declared.triplet.Triplet.{Triplet};
ghost use Rattle.cc_data.specs.Triplets.{first_byte, IsTriplet, AreTriplets, triplet_of, triplets_of, bytes_of_triplet, all_written};

/// What is written is a triplet, and it is read back, whatever the marker bits are.
pub fn written_is_read()
    ensures triplet { (t : Triplet) → t.kind < 4 → IsTriplet t (bytes_of_triplet t) }
    ensures read { (marker : ℕ) (t : Triplet) → t.kind < 4
        → triplet_of (first_byte marker t) t.a t.b ≡ t }
    ensures list { (ts : List Triplet) → All (λ t. t.kind < 4) ts
        → AreTriplets ts (all_written ts) }
{}

/// Bytes are at most one triplet, and at most one list of triplets: the one that they are read as.
pub fn bytes_are_one_triplet()
    ensures triplet { (t u : Triplet) (bytes : List ℕ) → IsTriplet t bytes → IsTriplet u bytes
        → t ≡ u }
    ensures list { (ts : List Triplet) (bytes : List ℕ) → AreTriplets ts bytes
        → triplets_of bytes ≡ ts }
{}

/// A list of triplets has three bytes each, lists after one another are one list, and bytes whose
/// number is divided by three are the triplets that they are read as.
pub fn triplets_are_three_bytes_each()
    ensures length { (ts : List Triplet) (bytes : List ℕ) → AreTriplets ts bytes
        → length bytes ≡ 3 * length ts }
    ensures joined { (ts us : List Triplet) (front rest : List ℕ) → AreTriplets ts front
        → AreTriplets us rest → AreTriplets (ts ++ us) (front ++ rest) }
    ensures read { (count : ℕ) (bytes : List ℕ) → All (λ byte. byte < 256) bytes
        → length bytes ≡ 3 * count → AreTriplets (triplets_of bytes) bytes }
{}
