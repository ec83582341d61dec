//! Laws of a service's lane: functions that do nothing, with the laws as their contracts.
ghost use Rattle.std.specs.Prelude.{ℕ, List, Option};
ghost use Rattle.lanes.specs.Chunks.{ServiceChunk};
ghost use Rattle.lanes.specs.FirstFit.{EarliestIsFirstFit};
ghost use Rattle.lanes.specs.OneMore.{OneMore};
ghost use Rattle.lanes.specs.Placing.{IsEarliest};
ghost use Rattle.cue_lists.specs.Listing.{IsFormed, Listing};
ghost use Rattle.cue_lists.specs.Rules.{IsRuled};
ghost use Rattle.dtvcc_author.specs.Captions.{service_captions};
ghost use Rattle.dtvcc_author.specs.Kept.{AreKept};
ghost use Rattle.lanes.specs.ServiceLane.{KeepsRoom, IsAllowedInService};

/// A service's units with one more, whatever room its frames have and whatever delays there are. There is a placement exactly
/// where some frame is allowed for that unit after the earliest placement of the others, which stays as it is.
pub fn law_of_one_more()
    ensures { (room : ℕ → ℕ) (ends : ℕ → Option ℕ) (chunks : List ServiceChunk) (frames : List ℕ)
        (chunk : ServiceChunk)
        → IsEarliest (IsAllowedInService room ends) chunks frames
        → OneMore (IsAllowedInService room ends) chunks frames chunk }
{}

/// A service's earliest placement, if there is one, puts each unit in turn in the first frame that is allowed, and where each
/// unit in turn stands so, the placement is the earliest.
pub fn law_of_first_fit()
    ensures { (room : ℕ → ℕ) (ends : ℕ → Option ℕ) → EarliestIsFirstFit (IsAllowedInService room ends) }
{}

/// In any placement of a service, the units of one frame have at most its room. The units of the frames of a delay, up to the
/// one that it ends in, have at most 125 bytes.
pub fn law_of_rooms()
    ensures { (room : ℕ → ℕ) (ends : ℕ → Option ℕ) → KeepsRoom room ends }
{}

/// The captions of each service of a cue list that keeps the rules do: each by itself, and with all before it.
pub fn law_of_kept_captions()
    ensures { (list : Listing) (service : ℕ) → IsFormed list → IsRuled list
        → AreKept list.rate list.frames (service_captions list.rate service list.cues) }
{}
