//! Laws of the definitions: functions without a body, whose contract is the law.

ghost use Rattle.std.specs.Prelude.{◌≡◌, ◌↔◌, ℕ, Bool, true, false, List, ◌∷◌};
ghost use Rattle.line21_codes.specs.declared.channels.DataChannel.{DataChannel};
ghost use Rattle.line21_codes.specs.declared.channels.FieldNumber.{FieldNumber};
ghost use Rattle.line21_codes.specs.Channels.{numbered_channel};
ghost use Rattle.line21_codes.specs.declared.codes.Code.{Code};
ghost use Rattle.line21_codes.specs.declared.codes.Control.{Control};
ghost use Rattle.line21_codes.specs.declared.pairs.Pair.{Pair};
ghost use Rattle.line21_codes.specs.ControlPairs.{is_control};
ghost use Rattle.line21_codes.specs.Reading.{code_of};
ghost use Rattle.line21_codes.specs.Repeats.{is_ignored};
ghost use Rattle.line21_screen.specs.Differences.{HasOther, grid_differs};
ghost use Rattle.line21_screen.specs.Fields.{channel, after_code};
ghost use Rattle.line21_screen.specs.Grid.{Grid};
ghost use Rattle.line21_screen.specs.Meaning.{after};
ghost use Rattle.line21_screen.specs.Scrolling.{IsInWindow};

/// A control code that is sent twice acts once.
pub fn doubled_codes_act_once()
    ensures { (in_field : FieldNumber) (before : List Pair) (pair : Pair)
        → is_control pair ≡ true → is_ignored before pair ≡ false
        → after in_field (pair ∷ pair ∷ before)
        ≡ after_code in_field (code_of pair) (after in_field before) }
{}

/// A pair that counts as null, one with bad parity too, changes no cell, no mode and no pen. A frame
/// without a pair of the field is no pair of its list, and changes nothing either.
pub fn null_pairs_change_nothing()
    ensures { (in_field : FieldNumber) (before : List Pair) (pair : Pair) → code_of pair ≡ Code.Null
        → after in_field (pair ∷ before) ≡ after in_field before }
{}

/// Two end of caption codes, each sent twice, in four pairs without one between: both act, and the
/// second brings the memories back.
pub fn two_flips_bring_memories_back()
    ensures displayed { (in_field : FieldNumber) (second : Bool) (before : List Pair) (eoc : Pair)
        → code_of eoc ≡ Code.Control second Control.Eoc → is_ignored before eoc ≡ false
        → (channel (numbered_channel second)
        (after in_field (eoc ∷ eoc ∷ eoc ∷ eoc ∷ before))).displayed
        ≡ (channel (numbered_channel second) (after in_field before)).displayed }
    ensures hidden { (in_field : FieldNumber) (second : Bool) (before : List Pair) (eoc : Pair)
        → code_of eoc ≡ Code.Control second Control.Eoc → is_ignored before eoc ≡ false
        → (channel (numbered_channel second)
        (after in_field (eoc ∷ eoc ∷ eoc ∷ eoc ∷ before))).hidden
        ≡ (channel (numbered_channel second) (after in_field before)).hidden }
{}

/// In roll-up captions no displayed cell ever stands outside of the window.
pub fn roll_up_stays_in_window()
    ensures { (in_field : FieldNumber) (data_channel : DataChannel) (pairs : List Pair)
        → IsInWindow (channel data_channel (after in_field pairs)) }
{}

/// Two grids differ just where some place has another cell.
pub fn grids_differ_where_a_place_has_another_cell()
    ensures { (old new : Grid) → (grid_differs old new ≡ true) ↔ HasOther old new }
{}
