//! Laws of the definitions: functions without a body, whose contract is the law.

ghost use Rattle.std.specs.Prelude.{◌≡◌, ℕ, ◌+◌, ◌<◌, ◌==◌, Bool, true, false, Option, Some, None};
ghost use Rattle.dtvcc_codes.specs.declared.pens.PenAttr.{PenAttr};
ghost use Rattle.dtvcc_codes.specs.declared.pens.PenColors.{PenColors};
ghost use Rattle.dtvcc_codes.specs.declared.windows.Definition.{Definition};
ghost use Rattle.dtvcc_codes.specs.declared.windows.WinAttr.{WinAttr};
ghost use Rattle.dtvcc_codes.specs.Spellable.{IsDefinition};
ghost use Rattle.dtvcc_windows.specs.Defining.{redefined};
ghost use Rattle.dtvcc_windows.specs.Laws.{IsInside, IsUnseen, KeepsInside, ShowsNothing};
ghost use Rattle.dtvcc_windows.specs.Sizes.{in_size};
ghost use Rattle.dtvcc_windows.specs.Text.{carriage_returned, cleared, form_fed, located, row_returned, window_backspaced, with_character};
ghost use Rattle.dtvcc_windows.specs.Windows.{WindowState, with_attributes, with_colors, with_window_pen};

/// A redefinition with the same size keeps all cells, and a pen that isn't past the last column.
pub fn same_size_keeps_text()
    ensures cells { (d : Definition) (w : WindowState) (row col : ℕ) → d.rows ≡ w.definition.rows
        → d.cols ≡ w.definition.cols
        → in_size d.rows d.cols row col ≡ true → (redefined d w).cells row col ≡ w.cells row col }
    ensures row { (d : Definition) (w : WindowState) → d.rows ≡ w.definition.rows → w.row < d.rows
        → (redefined d w).row ≡ w.row }
    ensures col { (d : Definition) (w : WindowState) → d.cols ≡ w.definition.cols → w.col < d.cols
        → (redefined d w).col ≡ w.col }
{}

/// What a smaller size cut off doesn't come back with a larger one.
pub fn cut_cells_are_lost()
    ensures { (small large : Definition) (w : WindowState) (row col : ℕ)
        → in_size small.rows small.cols row col ≡ false
        → (redefined large (redefined small w)).cells row col ≡ None }
{}

/// A carriage return on the last row moves each row up by one and leaves the last empty; on another row no cell moves.
pub fn carriage_return_rolls_on_the_last_row()
    ensures rolls { (w : WindowState) (row col : ℕ) → w.row + 1 ≡ w.definition.rows → row < w.row
        → (carriage_returned w).cells row col ≡ w.cells (row + 1) col }
    ensures empty { (w : WindowState) (col : ℕ) → w.row + 1 ≡ w.definition.rows
        → (carriage_returned w).cells w.row col ≡ None }
    ensures stays { (w : WindowState) → w.row + 1 < w.definition.rows
        → (carriage_returned w).cells ≡ w.cells }
{}

/// A backspace takes back what was just written: where its place had no cell, the window is as it was.
pub fn backspace_takes_back()
    ensures { (ch : Option ℕ) (w : WindowState) → w.col < w.definition.cols
        → w.cells w.row w.col ≡ None
        → window_backspaced (with_character ch w) ≡ w }
{}

/// What follows the last column is dropped, the transparent space too.
pub fn text_behind_the_last_column_is_dropped()
    ensures { (ch : Option ℕ) (w : WindowState) → w.col ≡ w.definition.cols
        → with_character ch w ≡ w }
{}

/// A form feed clears the window and puts the pen at its beginning.
pub fn form_feed_clears_and_returns()
    ensures { (w : WindowState) → form_fed w ≡ located 0 0 (cleared w) }
{}

/// Text in a window that is hidden shows nothing, and neither do its codes and commands.
pub fn hidden_windows_show_nothing()
    ensures text { (ch : Option ℕ) → ShowsNothing (with_character ch) }
    ensures codes { ShowsNothing window_backspaced × ShowsNothing form_fed
        × ShowsNothing carriage_returned × ShowsNothing row_returned }
    ensures commands { ShowsNothing cleared
        × ((attributes : WinAttr) → ShowsNothing (with_attributes attributes)) }
{}

/// What is done to the pen alone is seen only in what it then writes.
pub fn pens_are_unseen()
    ensures attributes { (pen : PenAttr) → IsUnseen (with_window_pen pen) }
    ensures colors { (colors : PenColors) → IsUnseen (with_colors colors) }
    ensures place { (row col : ℕ) → IsUnseen (located row col) }
{}

/// The pen never leaves its window.
pub fn pen_stays_in_its_window()
    ensures text { (ch : Option ℕ) → KeepsInside (with_character ch) }
    ensures codes { KeepsInside window_backspaced × KeepsInside form_fed
        × KeepsInside carriage_returned × KeepsInside row_returned }
    ensures place { (row col : ℕ) → KeepsInside (located row col) }
    ensures size { (d : Definition) → IsDefinition d → KeepsInside (redefined d) }
{}
