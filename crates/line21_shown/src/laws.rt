//! Laws of the definitions: functions without a body, whose contract is the law.

ghost use Rattle.std.specs.Prelude.{[], ◌∷◌, ◌++◌};
ghost use Rattle.line21_shown.specs.Examples.{ArePairsSent, ShowsScreen, shown_cue, two_colours, two_colours_screen, rolling, letter_row, empty_rows};
ghost use Rattle.line21_shown.specs.Reading.{ColumnsAreRead, FieldsAreRead};
ghost use Rattle.line21_shown.specs.Sentences.{AuthoredGridIsSaid, IsUp};
ghost use Rattle.line21_shown.specs.Shown.{AuthoredIsSeen};
ghost use Rattle.line21_shown.specs.Writing.{RunsAreWritten};

/// The pairs of a field whose control pairs are doubled mean what its units do, one after another, each
/// once, in the frame in which it begins.
pub fn columns_are_read()
    ensures { ColumnsAreRead }
{}

/// So do they where both channels and extended data share the field.
pub fn fields_are_read()
    ensures { FieldsAreRead }
{}

/// The codes of runs write exactly the cells of the runs into the memory that the mode writes, with any
/// pens, characters and columns: pop-on, paint-on and roll-up captions alike.
pub fn runs_are_written()
    ensures { RunsAreWritten }
{}

/// What is authored is what is seen. The pairs of a list that is in form, keeps the rules and is placed
/// show, at every settled frame, the authored grids of CC1 and CC3, and blank grids on CC2 and CC4.
pub fn authored_is_seen()
    ensures { AuthoredIsSeen }
{}

/// The authored grid, sentence by sentence. A pop-on or paint-on cue that is up shows the cells of its runs and
/// no others, and a chain of roll-up cues its rows and no others. Where no cue is up nothing is shown.
pub fn authored_grid_is_said()
    ensures { AuthoredGridIsSaid }
{}

/// A pop-on caption in two colours, worked out by hand: its pairs show it from SHOW up to HIDE, as it is authored, with the
/// lead cell of the red run.
pub fn colours_are_seen_with_lead_cells()
    ensures sent { ArePairsSent two_colours }
    ensures before { ShowsScreen two_colours 14 (empty_rows 15) }
    ensures from { ShowsScreen two_colours 15 two_colours_screen }
    ensures to { ShowsScreen two_colours 16 two_colours_screen }
    ensures behind { ShowsScreen two_colours 17 (empty_rows 15) }
{}

/// A chain of three roll-up captions of 2 rows, worked out by hand: its pairs show the last two of the captions, each a row
/// higher when the next is shown, as they are authored.
pub fn rolled_up_rows_are_seen()
    ensures sent { ArePairsSent rolling }
    ensures one { ShowsScreen rolling 7 (empty_rows 10 ++ letter_row 65 ∷ empty_rows 4) }
    ensures two { ShowsScreen rolling 15
        (empty_rows 9 ++ letter_row 65 ∷ letter_row 66 ∷ empty_rows 4) }
    ensures three { ShowsScreen rolling 24
        (empty_rows 9 ++ letter_row 66 ∷ letter_row 67 ∷ empty_rows 4) }
    ensures behind { ShowsScreen rolling 25 (empty_rows 15) }
{}

/// A cue is up from its SHOW on and before its HIDE, at frames 15 and 16 of a cue that is shown at 15 and hidden at 17. A
/// definition by which it is up at its HIDE, or isn't at its SHOW, is another one.
pub fn a_cue_is_up_from_its_show_to_its_hide()
    ensures before { IsUp 14 shown_cue → ⊥ }
    ensures from { IsUp 15 shown_cue }
    ensures to { IsUp 16 shown_cue }
    ensures behind { IsUp 17 shown_cue → ⊥ }
{}
