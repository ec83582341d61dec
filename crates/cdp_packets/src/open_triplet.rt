ghost use Rattle.std.specs.Prelude.{◌≡◌, ℕ, List};
ghost use Rattle.cdp_packets.specs.Readers.{kept_of_triplet};
ghost use Rattle.cdp_packets.specs.Reading.{bytes_behind, judge_triplet};

use crate::parts::CdpPart;
use cc_base::Step;
use cc_data::read_triplet;

/// The bytes of a triplet that have come.
#[derive(Clone, Copy, PartialEq, Eq)]
pub(crate) enum OpenTriplet {
    /// None.
    Empty,
    /// The first one.
    One { first: u8 },
    /// The first two.
    Two { first: u8, second: u8 },
}

/// Gives the parts that the next byte of a triplet makes, and what has come with it.
pub(crate) fn read_triplet_byte(triplet: OpenTriplet, item: u8) -> (Step<CdpPart>, OpenTriplet)
    ensures says { (bytes : List ℕ) → triplet ≡ kept_of_triplet bytes
        → result.0 ≡ judge_triplet bytes item }
    ensures next { (bytes : List ℕ) → triplet ≡ kept_of_triplet bytes
        → result.1 ≡ kept_of_triplet (bytes_behind bytes item) }
{
    let byte = CdpPart::SectionByte(item);
    match triplet {
        OpenTriplet::Empty => (Step::One(byte), OpenTriplet::One { first: item }),
        OpenTriplet::One { first } => {
            let half = CdpPart::Half(read_triplet([first, item, 0]));
            let second = item;
            (Step::Two(byte, half), OpenTriplet::Two { first, second })
        }
        OpenTriplet::Two { first, second } => {
            let whole = CdpPart::Triplet(read_triplet([first, second, item]));
            (Step::Two(byte, whole), OpenTriplet::Empty)
        }
    }
}
