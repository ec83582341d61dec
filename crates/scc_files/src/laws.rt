//! Laws of the definitions: functions without a body, whose contract is the law.

ghost use Rattle.std.specs.Prelude.{◌≡◌, ℕ, Bool, List, Ok, Option, Some, None};
ghost use Rattle.cc_base.specs.declared.refusal.Refusal.{Refusal};
ghost use Rattle.line21_codes.specs.declared.pairs.Pair.{Pair};
ghost use Rattle.scc_files.specs.Offences.{IsFirstOffence};
ghost use Rattle.scc_files.specs.Reading.{read_file};
ghost use Rattle.scc_files.specs.SccFiles.{AreBytes, AreRising, IsSccFile};
ghost use Rattle.scc_files.specs.Stretches.{CallsWrite, IsWritten};
ghost use Rattle.scc_files.specs.Written.{AreWritable, counted, pairs_not_null, written_file};

/// Bytes are read as pairs exactly where they are an SCC file of these pairs.
pub fn files_are_read()
    ensures read { (opening : Option ℕ) (pairs : List (ℕ × Pair)) (bytes : List ℕ)
        → IsSccFile opening pairs bytes → read_file opening bytes ≡ Ok pairs }
    ensures files { (opening : Option ℕ) (pairs : List (ℕ × Pair)) (bytes : List ℕ)
        → read_file opening bytes ≡ Ok pairs → IsSccFile opening pairs bytes }
{}

/// The frames of a file's pairs rise strictly, and each pair is two bytes.
pub fn pairs_of_files_rise()
    ensures rise { (opening : Option ℕ) (pairs : List (ℕ × Pair)) (bytes : List ℕ)
        → IsSccFile opening pairs bytes → AreRising 0 pairs }
    ensures bytes { (opening : Option ℕ) (pairs : List (ℕ × Pair)) (bytes : List ℕ)
        → IsSccFile opening pairs bytes → AreBytes pairs }
{}

/// Bytes have one first offence, if any, and a file has none.
pub fn first_offence_is_one()
    ensures one { (opening : Option ℕ) (bytes : List ℕ) (one other : Refusal)
        → IsFirstOffence opening bytes one → IsFirstOffence opening bytes other → one ≡ other }
    ensures none { (opening : Option ℕ) (bytes : List ℕ) (refusal : Refusal)
        (pairs : List (ℕ × Pair)) → IsFirstOffence opening bytes refusal
        → IsSccFile opening pairs bytes → ⊥ }
{}

/// What is written of pairs at rising frames of a day is an SCC file of those that aren't null: each at its own frame, where frame 0 is
/// at the same frame of the day, and else at its frame less that of the first of them; and so it is read.
pub fn written_files_are_files()
    ensures placed { (pairs : List (ℕ × Pair)) (start : ℕ) (drop_frame : Bool)
        → AreWritable start drop_frame 0 pairs
        → IsSccFile (Some start) (pairs_not_null pairs) (written_file start drop_frame pairs) }
    ensures file { (pairs : List (ℕ × Pair)) (start : ℕ) (drop_frame : Bool)
        → AreWritable start drop_frame 0 pairs
        → IsSccFile None (counted (pairs_not_null pairs)) (written_file start drop_frame pairs) }
    ensures read { (pairs : List (ℕ × Pair)) (start : ℕ) (drop_frame : Bool)
        → AreWritable start drop_frame 0 pairs
        → read_file None (written_file start drop_frame pairs)
        ≡ Ok (counted (pairs_not_null pairs)) }
{}

/// What is written of pairs at rising frames is their written form: the first line, an empty one, and each longest stretch of
/// consecutive frames with a pair that isn't null as one line.
pub fn longest_stretches_are_written()
    ensures { (pairs : List (ℕ × Pair)) (start : ℕ) (drop_frame : Bool) → AreRising 0 pairs
        → IsWritten start drop_frame pairs (written_file start drop_frame pairs) }
{}

/// A call of `begin`, any calls of `pair` and a call of `finish` write the file of these pairs.
pub fn calls_write_the_file()
    ensures { CallsWrite }
{}
