//! Laws of the definitions: functions without a body, whose contract is the law.

ghost use Rattle.std.specs.Prelude.{◌≡◌, ℕ, List, All, Some, None, false, option_map, take, true};
ghost use Rattle.std.specs.List.{AllByRecursion};
ghost use Rattle.std.specs.Option.{option_and_then};
ghost use Rattle.cue_types.specs.Cues.{IsCueFormed};
ghost use Rattle.cue_types.specs.Listing.{IsFormed, Listing};
ghost use Rattle.cue_types.specs.declared.cue.Cue.{Cue};
ghost use Rattle.cue_types.specs.declared.cue.Run.{Run};
ghost use Rattle.cue_types.specs.declared.cue.WinCue.{WinCue};
ghost use Rattle.frame_scheduler.specs.Rules.{IsRuled};
ghost use Rattle.frame_scheduler.specs.WindowExamples.{cell, centred, example_white, seen_place, ways_of, yellow};
ghost use Rattle.dtvcc_windows.specs.Showing.{shown};
ghost use Rattle.dtvcc_author.specs.CueUnits.{IsWritable};
ghost use Rattle.dtvcc_author.specs.WindowCommands.{commands_of, definition_of, window_commands};
ghost use Rattle.windows_shown.specs.LoadingExamples.{nth_loaded};
ghost use Rattle.windows_shown.specs.Loading.{IsLoad, IsLoadedAsAuthored, loaded_by};

/// The commands of each cue of a list that keeps the rules make the window that the list authors: after them it is seen as
/// authored once it is shown. A line 21 cue has no commands and no window.
pub fn windows_are_loaded_as_authored()
    ensures { (list : Listing) → IsFormed list → IsRuled list
        → AllByRecursion IsLoadedAsAuthored list.cues }
{}

/// The commands of a window cue define its window, and then are text alone.
pub fn windows_are_defined_and_written()
    ensures { (window : WinCue) (runs : List Run)
        → IsLoad (definition_of window) (window_commands window runs) }
{}

/// While they come nothing is seen of the window.
pub fn windows_are_loaded_unseen()
    ensures { (cue : Cue) (count : ℕ) → shown (loaded_by (take count (commands_of cue))) ≡ None }
{}

/// Each command of a cue in its ranges has bytes.
pub fn commands_are_writable()
    ensures { (cue : Cue) → IsCueFormed cue → All IsWritable (commands_of cue) }
{}

/// The windows of a list as its commands make them, worked out by hand. The first has attributes of its own, runs in colours and
/// in italics, and nothing between them. The second has its styles' attributes and colours.
pub fn loaded_windows_by_hand()
    ensures coloured { option_and_then (λ w. w.cells 0 1) (nth_loaded 0) ≡ cell 73 false yellow }
    ensures between { option_and_then (λ w. w.cells 0 3) (nth_loaded 0) ≡ None }
    ensures italic { option_and_then (λ w. w.cells 0 4) (nth_loaded 0)
        ≡ cell 88 true example_white }
    ensures own { option_map ways_of (nth_loaded 0) ≡ Some (false, true, true, centred) }
    ensures second_row { option_and_then (λ w. w.cells 1 0) (nth_loaded 1)
        ≡ cell 65 false example_white }
    ensures place { option_map seen_place (nth_loaded 1) ≡ Some (10, 50, 2, 10, 7) }
{}
