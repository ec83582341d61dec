//! Laws of the definitions: functions without a body, whose contract is the law.

ghost use Rattle.std.specs.Prelude.{◌≡◌, ◌↔◌, true};
ghost use Rattle.grid_print.specs.Writing.{in_pens, in_styles};
ghost use Rattle.line21_codes.specs.declared.styles.Cell.{Cell};
ghost use Rattle.dtvcc_windows.specs.declared.cells.DCell.{DCell};

/// Cells of line 21 are written alike just where they have one style, and a window's cells just where they have one pen and the
/// same colours.
pub fn cells_are_written_alike()
    ensures line21 { (a b : Cell) → (in_styles.alike a b ≡ true) ↔ (a.style ≡ b.style) }
    ensures windows { (a b : DCell)
        → (in_pens.alike a b ≡ true) ↔ ((a.pen ≡ b.pen) × (a.colors ≡ b.colors)) }
{}
