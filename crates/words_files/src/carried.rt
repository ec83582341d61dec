ghost use Rattle.std.specs.Prelude.{◌≡◌, ◌<◌, ◌≤◌, [], All, length};
ghost use Rattle.words_files.specs.CarriedWords.{carried_words, triplets_packet};

use anc_words::{CAPTION_DID, CAPTION_SDID, write_packet};
use arrayvec::ArrayVec;
use cc_base::Rate;
use cc_data::Triplet;
use cdp_packets::{CAPTION_FLAGS, cc_section, write_cdp};

/// Writes the words, two bytes each, that carry a distribution packet of these triplets with this counter (SMPTE ST 334-1 and
/// ST 334-2) into an empty `out`. Where the triplets are an array, the compiler knows how long their section, their packet and their
/// words are.
#[inline(always)]
#[tactic(auto, using(crate::proofs::CarriedWordsLemmas::no_sections))]
pub fn write_triplets(rate: Rate, counter: u16, triplets: &[Triplet], out: &mut ArrayVec<u8, 524>)
    requires few { length triplets.now ≤ 31 }
    requires kinds { All (λ t. t.kind < 4) triplets.now }
    requires empty { out.old.items ≡ [] }
    ensures { out.new.items ≡ carried_words (triplets_packet rate counter triplets.now) }
{
    let mut section = ArrayVec::new();
    cc_section(triplets, &mut section);
    let mut packet = ArrayVec::new();
    write_cdp(rate, CAPTION_FLAGS, counter, &section, &mut packet);
    write_packet(CAPTION_DID, CAPTION_SDID, &packet, out);
}
