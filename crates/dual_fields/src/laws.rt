//! Laws of the definitions: functions that do nothing, with the laws as their contracts.
ghost use Rattle.dual_fields.specs.Overlay.{SlotsAreOverlaid};
ghost use Rattle.dual_fields.specs.Dual.{BothAreSeen};
ghost use Rattle.dual_fields.specs.Expanded.{ResumedIsOneLane};
ghost use Rattle.dual_fields.specs.Own.{ChannelsAreOwn};
ghost use Rattle.dual_fields.specs.Resuming.{ResumesChangeNothing};
ghost use Rattle.dual_fields.specs.Rows.{RowTwo};
ghost use Rattle.dual_fields.specs.Sharing.{SharedAreOwn};
ghost use Rattle.dual_fields.specs.Together.{TogetherIsAlone};

/// A channel of a field has what its own units do.
pub fn channels_are_own()
    ensures { ChannelsAreOwn }
{}

/// Of two timelines in one field, whose text pairs are each led to by a control code of its own, each channel gets its own.
pub fn shared_are_own()
    ensures { SharedAreOwn }
{}

/// A cue's first unit that comes again while the cue is under way changes nothing.
pub fn resumes_change_nothing()
    ensures { ResumesChangeNothing }
{}

/// In a field that two lists share each channel gets what its own list gives it.
pub fn together_is_alone()
    ensures { TogetherIsAlone }
{}

/// The pair of a slot that two lanes share is the first lane's, and where it is null the second's.
pub fn slots_are_overlaid()
    ensures { SlotsAreOverlaid }
{}

/// The pairs of a worked example.
pub fn row_two()
    ensures { RowTwo }
{}

/// A lane with units that come again is a lane of a longer list of units.
pub fn resumed_is_one_lane()
    ensures { ResumedIsOneLane }
{}

/// At each frame that is settled for it each channel of a field that two cue lists share shows what its own list authors, at every rate.
pub fn both_are_seen()
    ensures { BothAreSeen }
{}
