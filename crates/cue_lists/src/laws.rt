//! What the rules give for what is seen: functions that do nothing, with laws as their contracts.
ghost use Rattle.std.specs.Prelude.{ℕ};
ghost use Rattle.cue_lists.specs.AuthoredServiceGrid.{AreOneAtATime, IsWindowAt, authored_windows};
ghost use Rattle.cue_form.specs.Printing.{in_order};
ghost use Rattle.cue_lists.specs.Rules.{IsRuled};
ghost use Rattle.cue_types.specs.Listing.{IsFormed, Listing};

/// In a list that keeps the rules, the cues of a window are shown one at a time, as each is loaded when the one before is hidden
/// (rule WindowBusy). So a service shows the window of each cue from its SHOW up to its HIDE, and no other.
pub fn a_window_shows_one_cue_at_a_time()
    ensures one { (list : Listing) → IsFormed list → IsRuled list → (service id frame : ℕ)
        → AreOneAtATime service id frame list.cues }
    ensures shown { (list : Listing) → IsFormed list → IsRuled list → (service id frame : ℕ)
        → IsWindowAt service id frame list.cues (authored_windows service list.cues frame id) }
{}

/// A list that keeps the rules keeps them with its shares in ascending order of their services, as it is printed.
pub fn a_printed_list_keeps_the_rules()
    ensures { (list : Listing) → IsFormed list → IsRuled list → IsRuled (in_order list) }
{}
