ghost use Rattle.std.specs.Prelude.{◌≡◌, ◌<◌, slice_index};
ghost use Rattle.cc_data.specs.Triplets.{IsTriplet, bytes_of_triplet, triplet_of};

/// A triplet of cc_data: two bytes of captions, what they belong to and whether they count
/// (CTA-708-E, cc_data()).
#[derive(Clone, Copy, Default, PartialEq, Eq)]
pub struct Triplet {
    /// Whether the triplet counts (cc_valid). One that doesn't is ignored, whatever its kind.
    pub valid: bool,
    /// What its bytes are (cc_type), 0 to 3: a pair of line 21's field 1 or of field 2, further bytes of
    /// a caption channel packet, or the first bytes of one.
    pub kind: u8,
    /// The first byte of captions.
    pub a: u8,
    /// The second byte of captions.
    pub b: u8,
}

/// The kind of a pair of line 21's field 1 (CTA-708-E, cc_type).
pub const FIELD_1: u8 = 0;

/// The kind of a pair of line 21's field 2 (CTA-708-E, cc_type).
pub const FIELD_2: u8 = 1;

/// The kind of further bytes of a caption channel packet (CTA-708-E, cc_type).
pub const PACKET_DATA: u8 = 2;

/// The kind of the first bytes of a caption channel packet (CTA-708-E, cc_type).
pub const PACKET_START: u8 = 3;

/// A filler: a triplet that doesn't count, with which the triplets of a frame are filled up to its rate's number
/// (CTA-708-E, cc_data()).
pub const FILLER: Triplet = Triplet {
    valid: false,
    kind: PACKET_DATA,
    a: 0,
    b: 0,
};

/// The triplet that three bytes are. The marker bits, the top five of the first byte, aren't checked
/// (CTA-708-E, cc_data()).
pub fn read_triplet(bytes: [u8; 3]) -> Triplet
    ensures triplet { IsTriplet result bytes }
    ensures value { result ≡ triplet_of (slice_index bytes 0) (slice_index bytes 1)
        (slice_index bytes 2) }
{
    let [first, a, b] = bytes;
    Triplet {
        valid: first / VALID % 2 == 1,
        kind: first % VALID,
        a,
        b,
    }
}

/// The three bytes of a triplet, whose kind is below 4. The marker bits are written as ones;
/// `read_triplet` gives the triplet back (CTA-708-E, cc_data()).
pub fn write_triplet(t: Triplet) -> [u8; 3]
    requires { t.kind < 4 }
    ensures bytes { result ≡ bytes_of_triplet t }
    ensures triplet { IsTriplet t result }
{
    let marked = if t.valid { COUNTS } else { IGNORED };
    [marked + t.kind, t.a, t.b]
}

// The bit of the first byte that says that a triplet counts. Below it stand the two bits of the kind.
const VALID: u8 = 0x04;

// The first byte as it is written, without its kind: the marker bits are ones.
const COUNTS: u8 = 0xFC;

const IGNORED: u8 = 0xF8;
