//! Laws of the definitions: functions without a body, whose contract is the law.

ghost use Rattle.std.specs.Prelude.{◌≡◌, ◌↔◌, ◌&&◌, ℕ, List, ◌∷◌, true, false, Some, None};
ghost use Rattle.line21_codes.specs.declared.channels.FieldNumber.{FieldNumber};
ghost use Rattle.line21_codes.specs.declared.codes.Code.{Code};
ghost use Rattle.line21_codes.specs.declared.pairs.Pair.{Pair};
ghost use Rattle.line21_codes.specs.declared.characters.Spelling.{Spelling};
ghost use Rattle.line21_codes.specs.Parity.{has_odd_parity, low_bits};
ghost use Rattle.line21_codes.specs.ControlPairs.{is_control};
ghost use Rattle.line21_codes.specs.Reading.{code_of};
ghost use Rattle.line21_codes.specs.Writing.{pair_of_code};
ghost use Rattle.line21_codes.specs.Writable.{IsWritable, IsReadable, is_skipped, is_doubled};
ghost use Rattle.line21_codes.specs.SkippedPairs.{is_listed};
ghost use Rattle.line21_codes.specs.Repeats.{is_ignored, Blocks};
ghost use Rattle.line21_codes.specs.Spellings.{spelling_of, Shows, HasNoCode};

/// What is written is read back, in either field, and has odd parity.
pub fn written_is_read()
    ensures code { (in_field : FieldNumber) (code : Code) → IsWritable code
        → code_of (pair_of_code in_field code) ≡ code }
    ensures parity { (in_field : FieldNumber) (code : Code) → IsWritable code
        → has_odd_parity (pair_of_code in_field code) ≡ true }
{}

/// What is read and not skipped can be written, in either field, as a pair that is read alike.
pub fn read_is_written()
    ensures writable { (pair : Pair) → is_skipped (code_of pair) ≡ false
        → IsWritable (code_of pair) }
    ensures code { (in_field : FieldNumber) (pair : Pair) → is_skipped (code_of pair) ≡ false
        → code_of (pair_of_code in_field (code_of pair)) ≡ code_of pair }
{}

/// The codes that can be written are exactly those that some two bytes are read as and that are not
/// skipped.
pub fn writable_codes_are_read()
    ensures { (code : Code) → IsWritable code ↔ (IsReadable code × (is_skipped code ≡ false)) }
{}

/// The skipped pairs are exactly the control pairs of the list.
pub fn skipped_pairs_are_listed()
    ensures { (pair : Pair)
        → is_skipped (code_of pair)
        ≡ (is_control pair && is_listed (low_bits pair.a) (low_bits pair.b)) }
{}

/// The control pairs are exactly the pairs of the codes that are sent twice.
pub fn control_pairs_are_doubled()
    ensures read { (pair : Pair) → is_control pair ≡ is_doubled (code_of pair) }
    ensures written { (in_field : FieldNumber) (code : Code) → IsWritable code
        → is_control (pair_of_code in_field code) ≡ is_doubled code }
{}

/// A spelled character is shown again by its table, and one without a spelling stands in none.
pub fn spelled_is_shown()
    ensures shown { (ch : ℕ) (spelling : Spelling) → spelling_of ch ≡ Some spelling
        → Shows ch spelling }
    ensures none { (ch : ℕ) → spelling_of ch ≡ None → HasNoCode ch }
{}

/// After blocks, of which each is a control pair twice or another pair alone, the next pair acts,
/// and where it is a control pair its repeat is ignored.
pub fn blocks_act_once()
    ensures first { (before : List Pair) (pair : Pair) → Blocks before
        → is_ignored before pair ≡ false }
    ensures second { (before : List Pair) (pair : Pair) → Blocks before → is_control pair ≡ true
        → is_ignored (pair ∷ before) pair ≡ true }
{}
