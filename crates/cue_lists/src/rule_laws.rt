//! What holds of the rules, whatever the list.

ghost use Rattle.cue_types.specs.Listing.{IsFormed, Listing};
ghost use Rattle.cue_lists.specs.Rules.{IsRuled};
ghost use Rattle.cue_lists.specs.Rules.Sentences.{AreLanesRuled};

/// A list keeps the rules exactly where the cues of each of its channels and services do. Each cue keeps them by itself, on a
/// channel with the one before it, and of a service with all before it.
pub fn ruled_by_lane()
    ensures lanes { (list : Listing) → IsRuled list → AreLanesRuled list }
    ensures ruled { (list : Listing) → IsFormed list → AreLanesRuled list → IsRuled list }
{}
