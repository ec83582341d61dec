//! Authored grids worked out by hand: these functions do nothing, and their contracts are proved.

ghost use Rattle.std.specs.Prelude.{◌≡◌, None, Some, false, true};
ghost use Rattle.std.specs.Option.{option_and_then, option_map};
ghost use Rattle.line21_codes.specs.declared.channels.Chan.TheVariants as chan;
ghost use Rattle.cue_lists.specs.AuthoredGrid.{authored_grid};
ghost use Rattle.cue_lists.specs.AuthoredServiceGrid.{ShowsEachCue, authored_windows};
ghost use Rattle.cue_lists.specs.Examples.{red, red_hi};
ghost use Rattle.cue_lists.specs.WindowExamples.{cell, centred, example_white, seen_place, two_windows, ways_of, yellow};
ghost use Rattle.dtvcc_windows.specs.Styles.{window_style};

/// A caption shows from its SHOW up to its HIDE, and on its channel alone.
pub fn a_caption_shows_from_its_show_to_its_hide()
    ensures before { authored_grid chan.Cc1 red_hi 13 15 2 ≡ None }
    ensures first { authored_grid chan.Cc1 red_hi 14 15 2 ≡ red 72 }
    ensures last { authored_grid chan.Cc1 red_hi 39 15 2 ≡ red 72 }
    ensures hidden { authored_grid chan.Cc1 red_hi 40 15 2 ≡ None }
    ensures elsewhere { authored_grid chan.Cc3 red_hi 14 15 2 ≡ None }
{}

/// A run has its characters from its COL on and, where its pen needs a mid-row code, a space in that pen left of them.
pub fn a_run_has_its_lead_cell_and_its_characters()
    ensures left { authored_grid chan.Cc1 red_hi 14 15 0 ≡ None }
    ensures lead { authored_grid chan.Cc1 red_hi 14 15 1 ≡ red 32 }
    ensures second { authored_grid chan.Cc1 red_hi 14 15 3 ≡ red 73 }
    ensures behind { authored_grid chan.Cc1 red_hi 14 15 4 ≡ None }
    ensures above { authored_grid chan.Cc1 red_hi 14 14 2 ≡ None }
{}

/// A service shows the window of each cue from its SHOW up to its HIDE, wherever its cues are shown one at a time in a window.
pub fn a_service_shows_the_windows_of_its_cues()
    ensures { ShowsEachCue }
{}

/// A window shows from its cue's SHOW up to its HIDE, in its own service and by its own id alone, at its place and with its
/// size and priority.
pub fn a_window_shows_from_its_show_to_its_hide()
    ensures before { authored_windows 1 two_windows 59 0 ≡ None }
    ensures first { option_map seen_place (authored_windows 1 two_windows 60 0)
        ≡ Some (60, 50, 1, 10, 0) }
    ensures both { option_map seen_place (authored_windows 1 two_windows 99 1)
        ≡ Some (10, 50, 2, 10, 7) }
    ensures hidden { authored_windows 1 two_windows 100 0 ≡ None }
    ensures elsewhere { authored_windows 2 two_windows 60 0 ≡ None }
{}

/// A window's place isn't relative, both its locks are on, and it has its own attributes, or else its style's.
pub fn a_window_has_its_attributes()
    ensures own { option_map ways_of (authored_windows 1 two_windows 60 0)
        ≡ Some (false, true, true, centred) }
    ensures of_style { option_map (λ w. w.attributes) (authored_windows 1 two_windows 90 1)
        ≡ Some (window_style 4) }
{}

/// A run has its characters from its COL on, in its own colours, or else in the pen style's, with its own italics.
pub fn a_window_has_the_cells_of_its_runs()
    ensures coloured { option_and_then (λ w. w.cells 0 1) (authored_windows 1 two_windows 60 0)
        ≡ cell 73 false yellow }
    ensures between { option_and_then (λ w. w.cells 0 3) (authored_windows 1 two_windows 60 0)
        ≡ None }
    ensures italic { option_and_then (λ w. w.cells 0 4) (authored_windows 1 two_windows 60 0)
        ≡ cell 88 true example_white }
    ensures below { option_and_then (λ w. w.cells 1 0) (authored_windows 1 two_windows 60 0)
        ≡ None }
    ensures second_row { option_and_then (λ w. w.cells 1 0) (authored_windows 1 two_windows 90 1)
        ≡ cell 65 false example_white }
{}
