//! Laws of the definitions: functions without a body, whose contract is the law.

ghost use Rattle.std.specs.Prelude.{◌≡◌, ℕ, false, true, List, [], ◌∷◌, None, map};
ghost use Rattle.frame_scheduler.specs.WindowExamples.{cell, example_white};
ghost use Rattle.frame_scheduler.specs.Rules.{IsRuled};
ghost use Rattle.cue_types.specs.Listing.{IsFormed, Listing};
ghost use Rattle.cue_types.specs.declared.lane.Lane.TheVariants.{Service};
ghost use Rattle.windows_shown.specs.ServiceLanes.{lane_frame_bytes};
ghost use Rattle.frame_scheduler.specs.Planned.{IsListPlaced, Placement};
ghost use Rattle.windows_shown.specs.AuthoredShown.{IsServicePlaced, ShowsAuthored, list_lane};
ghost use Rattle.windows_shown.specs.Examples.{cell_seen, delayed_frames, delayed_list, is_seen};

/// What is authored is what is seen. In a list that is in form and keeps the rules, a service whose units stand anywhere that
/// its lane allows shows at every frame just the authored windows, with any number of delays. A service without cues shows
/// nothing.
pub fn authored_windows_are_seen()
    ensures anywhere { (list : Listing) (service : ℕ) (frames : List ℕ) → IsFormed list
        → IsRuled list → IsServicePlaced list service frames
        → ShowsAuthored list service frames }
    ensures placed { (list : Listing) (placed : Placement) → IsFormed list → IsRuled list
        → IsListPlaced list placed
        → (service : ℕ) → ShowsAuthored list service (placed (Service service)) }
{}

/// A list of windows with a delay is in form and keeps the rules, and its units stand where the lane allows them.
pub fn windows_with_a_delay_are_placed()
    ensures formed { IsFormed delayed_list }
    ensures ruled { IsRuled delayed_list }
    ensures placed { IsServicePlaced delayed_list 1 delayed_frames }
{}

/// What is sent of it, and what is seen, worked out by hand. Each window is shown from its SHOW up to its HIDE and in no
/// other frame, after its delay too, and so is one that was loaded while the delay was on.
pub fn windows_with_a_delay_are_seen()
    ensures shows { lane_frame_bytes (list_lane delayed_list 1 delayed_frames) 4
        ≡ 0x89 ∷ 0x01 ∷ 0x92 ∷ 0 ∷ 0 ∷ 0x90 ∷ 0x05 ∷ 0 ∷ [] }
    ensures delays { lane_frame_bytes (list_lane delayed_list 1 delayed_frames) 7
        ≡ 0x8D ∷ 1 ∷ 0x89 ∷ 0x02 ∷ [] }
    ensures first { map (is_seen 0) (3 ∷ 4 ∷ 11 ∷ 12 ∷ 15 ∷ 16 ∷ 21 ∷ 22 ∷ [])
        ≡ false ∷ true ∷ true ∷ false ∷ false ∷ true ∷ true ∷ false ∷ [] }
    ensures delayed { map (is_seen 1) (6 ∷ 7 ∷ 9 ∷ 10 ∷ 19 ∷ 20 ∷ [])
        ≡ false ∷ false ∷ false ∷ true ∷ true ∷ false ∷ [] }
    ensures meanwhile { map (is_seen 2) (9 ∷ 10 ∷ 14 ∷ 15 ∷ 19 ∷ 20 ∷ [])
        ≡ false ∷ false ∷ false ∷ true ∷ true ∷ false ∷ [] }
    ensures letter { cell_seen 1 10 0 0 ≡ cell 65 false example_white }
{}
