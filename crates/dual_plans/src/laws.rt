//! Laws of such plans: functions that do nothing, with the laws as their contracts.
ghost use Rattle.dual_plans.specs.FieldPlaces.{PlacedFieldsAreDual};
ghost use Rattle.dual_plans.specs.Verdict.{EachPairIsJudged, NoPairIsJudgedTwice};

/// Where two lists go together and the units of both are placed, each field is as what a viewer sees of both asks.
pub fn placed_fields_are_dual()
    ensures { PlacedFieldsAreDual }
{}

/// Of two lists that go together the units have placements, or a cue of the first is its first without one, or a cue of the second is
/// its first without one beside the first.
pub fn each_pair_is_judged()
    ensures { EachPairIsJudged }
{}

/// Of these no two hold: all placements give the same frames, and one cue of one list alone is the first without a placement.
pub fn no_pair_is_judged_twice()
    ensures { NoPairIsJudgedTwice }
{}
