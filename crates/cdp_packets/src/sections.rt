ghost use Rattle.std.specs.Prelude.{◌≡◌, ℕ, ◌+◌, ◌*◌, ◌<◌, ◌≤◌, ◌++◌, List, All, length, take, drop};
ghost use Rattle.arrayvec.specs.ArrayVec.{array_vec_len};
ghost use Rattle.cdp_packets.specs.Sections.{section_rest, IsSection, IsSectionList};
ghost use Rattle.cdp_packets.specs.Written.{cc_data_section};

use crate::pieces::append;
use arrayvec::ArrayVec;
use cc_data::{Triplet, write_triplet};

/// Appends the cc_data section of at most 31 triplets, each of a kind below 4. There is room for its
/// two bytes and three a triplet (SMPTE ST 334-2, ccdata_section).
pub fn cc_section(triplets: &[Triplet], out: &mut ArrayVec<u8, 244>)
    requires few { length triplets.now ≤ 31 }
    requires kinds { All (λ t. t.kind < 4) triplets.now }
    requires room { array_vec_len out.old + (2 + 3 * length triplets.now) ≤ 244 }
    ensures section { out.new.items ≡ out.old.items ++ cc_data_section triplets.now }
    ensures list { IsSectionList out.old.items → IsSectionList out.new.items }
{
    append(out, &[CC_DATA, COUNT_MARKER + triplets.len() as u8]);
    let mut written: ArrayVec<[u8; 3], 31> = ArrayVec::new();
    for triplet in triplets {
        written.push(write_triplet(*triplet));
    }
    append(out, written.as_flattened());
}

/// The number of bytes of the first section of a list of sections that isn't empty (SMPTE ST 334-2).
pub fn section_len(sections: &[u8]) -> usize
    requires list { IsSectionList sections.now }
    requires some { 0 < length sections.now }
    ensures first { (section rest : List ℕ) → IsSection section → sections.now ≡ section ++ rest
        → result ≡ length section }
    ensures within { result ≤ length sections.now }
    ensures section { IsSection (take result sections.now) }
    ensures rest { IsSectionList (drop result sections.now) }
{
    let [id, second, ..] = sections else {
        unreachable!()
    };
    2 + rest_len(*id, *second)
}

// The number of bytes after the first two of a section.
pub(crate) fn rest_len(id: u8, second: u8) -> usize
    ensures { result ≡ section_rest id second }
{
    let second = usize::from(second);
    match id {
        TIME_CODE => 3,
        CC_DATA => 3 * (second % 32),
        SERVICE_INFORMATION => 7 * (second % 16),
        _ => second,
    }
}

/// The id of a time code section (SMPTE ST 334-2).
pub const TIME_CODE: u8 = 0x71;

/// The id of a section of cc_data (SMPTE ST 334-2).
pub const CC_DATA: u8 = 0x72;

// The id of a section of service information; every section of another id has its length in its second byte.
pub(crate) const SERVICE_INFORMATION: u8 = 0x73;

// The ids that are kept for the future: the second byte of their sections says how many follow it.
pub(crate) const FIRST_FUTURE: u8 = 0x75;

pub(crate) const LAST_FUTURE: u8 = 0xEF;

// The three marker bits above the count of a cc_data section.
const COUNT_MARKER: u8 = 0xE0;
