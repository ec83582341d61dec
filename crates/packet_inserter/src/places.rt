ghost use Rattle.std.specs.Prelude.{◌≡◌, ◌≤◌, ◌+◌, ℕ, ◌++◌, List, length, filter, true, IfNone, IfSome};
ghost use Rattle.std.specs.List.{All, concat};
ghost use Rattle.cdp_packets.specs.Sections.{AreSections, IsSectionList};
ghost use Rattle.packet_inserter.specs.Insertion.{IsPlace, StandBeforeCaptions, is_captions, is_kept, is_time_code_section};
ghost use Rattle.packet_inserter.specs.Walks.{StandsBehindTimeCodes};

use arrayvec::ArrayVec;
use cdp_packets::{CC_DATA, TIME_CODE, split_section};

/// Whether a section is one of cc_data.
fn is_captions(section: &[u8]) -> bool
    ensures { result ≡ is_captions section.now }
{
    section.first() == Some(&CC_DATA)
}

/// Whether a section is a time code.
fn is_time_code(section: &[u8]) -> bool
    ensures { result ≡ is_time_code_section section.now }
{
    section.first() == Some(&TIME_CODE)
}

/// The bytes of the sections that aren't cc_data, in order.
pub(crate) fn kept_sections(sections: &[u8]) -> ArrayVec<u8, 244>
    requires { length sections.now ≤ 244 }
    ensures { (cut : List (List ℕ)) → AreSections cut → concat cut ≡ sections.now
        → result.items ≡ concat (filter is_kept cut) }
{
    let mut kept = ArrayVec::new();
    let mut rest = sections;
    while let Some((section, behind)) = split_section(rest) {
        if !is_captions(section) {
            append(&mut kept, section);
        }
        rest = behind;
    }
    kept
}

/// The number of bytes before the first section of cc_data, if there is one.
fn captions_place(sections: &[u8]) -> Option<usize>
    ensures some { (cut : List (List ℕ)) → AreSections cut → concat cut ≡ sections.now
        → IfSome result (λ place. (before : List (List ℕ)) × StandBeforeCaptions cut before
        × (place ≡ length (concat before))) }
    ensures none { (cut : List (List ℕ)) → AreSections cut → concat cut ≡ sections.now
        → IfNone result (All (λ section. is_kept section ≡ true) cut) }
{
    let mut place = 0;
    let mut rest = sections;
    while let Some((section, behind)) = split_section(rest) {
        if is_captions(section) {
            return Some(place);
        }
        place += section.len();
        rest = behind;
    }
    None
}

/// The number of bytes of the time codes with which the sections begin.
fn time_codes_len(sections: &[u8]) -> usize
    ensures { (cut : List (List ℕ)) → AreSections cut → concat cut ≡ sections.now
        → StandsBehindTimeCodes cut result }
{
    let mut place = 0;
    let mut rest = sections;
    while let Some((section, behind)) = split_section(rest) {
        if !is_time_code(section) {
            return place;
        }
        place += section.len();
        rest = behind;
    }
    place
}

/// The number of bytes before the place of a new section of cc_data: the first such section's place; else before the first section
/// that isn't a time code; else at the end.
pub(crate) fn place(sections: &[u8]) -> usize
    ensures { (cut : List (List ℕ)) → AreSections cut → concat cut ≡ sections.now
        → (before : List (List ℕ)) × IsPlace cut before × (result ≡ length (concat before)) }
{
    match captions_place(sections) {
        Some(place) => place,
        None => time_codes_len(sections),
    }
}

/// Appends a piece, for which there is room.
pub(crate) fn append(out: &mut ArrayVec<u8, 244>, piece: &[u8])
    requires { length out.old.items + length piece.now ≤ 244 }
    ensures { out.new.items ≡ out.old.items ++ piece.now }
{
    if out.try_extend_from_slice(piece).is_err() {
        unreachable!();
    }
}
