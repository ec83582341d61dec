ghost use Rattle.std.specs.Prelude.{◌≡◌, ◌==◌, if◌then◌else◌, ℕ, List};
ghost use Rattle.cc_base.specs.Steps.{IsTaken};
ghost use Rattle.cdp_packets.specs.declared.open_triplet.OpenTriplet.TheVariants as open_triplet;
ghost use Rattle.cdp_packets.specs.declared.within.Within.TheVariants as within;
ghost use Rattle.cdp_packets.specs.Readers.{next_of_section};
ghost use Rattle.cdp_packets.specs.Reading.{count_fits, id_fits, judge_section, section_behind, triplet_behind};

use crate::open_triplet::{OpenTriplet, read_triplet_byte};
use crate::parts::CdpPart;
use crate::sections::{
    CC_DATA, FIRST_FUTURE, LAST_FUTURE, SERVICE_INFORMATION, TIME_CODE, rest_len,
};
use cc_base::{Step, Why};

/// A byte of the sections.
#[derive(Clone, Copy, PartialEq, Eq)]
pub(crate) enum Within {
    /// The id of a section.
    Id,
    /// The byte after this id.
    Count { id: u8 },
    /// One of this many bytes that are left of the section, which carries no triplets.
    Body { left: usize },
    /// One of this many bytes that are left of a section of cc_data, after the open triplet's.
    Triplet { left: usize, triplet: OpenTriplet },
}

// Whether a section with this id fits into the bytes that are left, with more sections after it.
fn does_id_fit(left: u8, id: u8) -> bool
    ensures { result ≡ id_fits left id }
{
    match id {
        TIME_CODE => left >= 5 && left != 6,
        CC_DATA | SERVICE_INFORMATION => left >= 2 && left != 3,
        FIRST_FUTURE..=LAST_FUTURE => left >= 2,
        _ => false,
    }
}

// Whether a section that has as many bytes as its second byte says fits into the bytes that are left, from this one on.
fn does_count_fit(left: u8, id: u8, count: u8) -> bool
    ensures { result ≡ count_fits left id count }
{
    let left = usize::from(left);
    let rest = rest_len(id, count);
    left > rest && left - rest != 2
}

// What comes next in a section, or the id of the next one where none of its bytes is left.
fn unless_ended(left: usize, next: Within) -> Within
    ensures { result ≡ (if left == 0 then within.Id else next) }
{
    if left == 0 { Within::Id } else { next }
}

// What comes next after the first two bytes of a section with this id.
fn body(id: u8, left: usize) -> Within
    ensures { result
        ≡ (if id == 0x72 then within.Triplet left open_triplet.Empty else within.Body left) }
{
    match id {
        CC_DATA => Within::Triplet {
            left,
            triplet: OpenTriplet::Empty,
        },
        _ => Within::Body { left },
    }
}

/// Judges a byte of the sections, of which this many are left with it, and says what comes next where it isn't refused.
pub(crate) fn read_section_byte(within: Within, left: u8, item: u8) -> (Step<CdpPart>, Within)
    ensures says { (section triplet : List ℕ) → within ≡ next_of_section section triplet
        → result.0 ≡ judge_section left section triplet item }
    ensures next { (section triplet : List ℕ) → within ≡ next_of_section section triplet
        → IsTaken result.0
        → result.1 ≡ next_of_section (section_behind section item)
        (triplet_behind section triplet item) }
{
    let byte = CdpPart::SectionByte(item);
    match within {
        Within::Id if does_id_fit(left, item) => (Step::One(byte), Within::Count { id: item }),
        Within::Id => (Step::Refuse(Why::Section), within),
        Within::Count { id } if id == TIME_CODE || does_count_fit(left, id, item) => {
            let left = rest_len(id, item);
            (Step::One(byte), unless_ended(left, body(id, left)))
        }
        Within::Count { .. } => (Step::Refuse(Why::Count), within),
        Within::Body { left } => {
            let left = left.saturating_sub(1);
            (Step::One(byte), unless_ended(left, Within::Body { left }))
        }
        Within::Triplet { left, triplet } => {
            let left = left.saturating_sub(1);
            let (step, triplet) = read_triplet_byte(triplet, item);
            (step, unless_ended(left, Within::Triplet { left, triplet }))
        }
    }
}
