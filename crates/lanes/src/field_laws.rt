//! Laws of a field's lane: functions that do nothing, with the laws as their contracts.
ghost use Rattle.std.specs.Prelude.{ℕ, ◌+◌, ◌<◌, ◌↔◌, List, []};
ghost use Rattle.line21_author.specs.declared.event.Event.{Event};
ghost use Rattle.lanes.specs.declared.chunk.FieldChunk.{FieldChunk};
ghost use Rattle.lanes.specs.DoubledPairs.{IsDoubled};
ghost use Rattle.lanes.specs.FieldLane.{field_lane};
ghost use Rattle.lanes.specs.FirstFit.{EarliestIsFirstFit};
ghost use Rattle.lanes.specs.LaneDoubling.{AreDoubledControls, AreEnded};
ghost use Rattle.lanes.specs.LaneEvents.{event_at};
ghost use Rattle.line21_author.specs.EventOrder.{AreApart};
ghost use Rattle.lanes.specs.FieldPlan.{field_chunk_cue};
ghost use Rattle.lanes.specs.LaneRoom.{IsFirstCrowded};
ghost use Rattle.lanes.specs.LaneTimeline.{lane_timeline};
ghost use Rattle.lanes.specs.OneCue.{AreOfOneCue, total_slots};
ghost use Rattle.lanes.specs.OneMore.{OneMore};
ghost use Rattle.lanes.specs.Placing.{IsPlaced, IsEarliest};
ghost use Rattle.lanes.specs.SlotPlacing.{EarliestInFrames};
ghost use Rattle.lanes.specs.Timeline.{column};

/// A lane's units with one more: there is a placement exactly where some slot is allowed for that
/// unit after the earliest placement of the others, which stays as it is.
pub fn law_of_one_more()
    ensures { (events : List Event) (chunks : List FieldChunk) (fs : List ℕ) (chunk : FieldChunk)
        → IsEarliest (field_lane events) chunks fs → OneMore (field_lane events) chunks fs chunk }
{}

/// A lane's earliest placement, if there is one, puts each unit in turn in the first slot that is
/// allowed, and where each unit in turn stands so, the placement is the earliest.
pub fn law_of_first_fit()
    ensures { (events : List Event) → EarliestIsFirstFit (field_lane events) }
{}

/// A lane's earliest placement, slot by slot, is the earliest one frame by frame: no unit could begin in an earlier frame that
/// has a slot, with every cadence.
pub fn law_of_slots_and_frames()
    ensures { (events : List Event) → EarliestInFrames (field_lane events) }
{}

/// In any placement of a lane, every longest stretch of equal control pairs in the slots below one
/// has an even number of pairs, where no unit or event goes on at that slot.
pub fn law_of_doubling()
    ensures { (events : List Event) (chunks : List FieldChunk) (fs : List ℕ) (n : ℕ)
        → AreApart events → AreDoubledControls events chunks → AreEnded events chunks n
        → IsPlaced (field_lane events) [] chunks fs
        → IsDoubled (column (lane_timeline (event_at events) chunks fs) n) }
{}

/// One cue alone, whose events are at its SHOW or later, has no room exactly where its units take
/// more slots than there are from its LOAD to its SHOW.
pub fn law_of_one_cue()
    ensures { (events : List Event) (chunks : List FieldChunk) (load show : ℕ)
        → AreOfOneCue events chunks load show
        → (IsFirstCrowded (field_lane events) field_chunk_cue chunks 1
        ↔ (show < load + total_slots chunks)) }
{}
