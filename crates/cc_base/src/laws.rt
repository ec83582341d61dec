//! Laws of the definitions: functions without a body, whose contract is the law.

ghost use Rattle.std.specs.Prelude.{◌≡◌, ◌++◌, ℕ, List, Some};
ghost use Rattle.cc_base.specs.declared.refusal.Refusal.{Refusal as Refused};
ghost use Rattle.cc_base.specs.Feeding.{HasRefused, Judge, Verdict, read_first, reading};

/// The law of pieces: what is read of two pieces at once is what is read of the first, and then of the second after it,
/// unless the first was refused.
pub fn law_of_pieces<I, P>()
    ensures { (judge : Judge I P) (verdict : Verdict P) (place : List I → ℕ) (before : List I)
        (above : List P) (first second : List I)
        → reading judge verdict place before above (first ++ second)
        ≡ read_first (reading judge verdict place before above first).refusal
        (reading judge verdict place before above first).parts
        (reading judge verdict place (before ++ first)
        (above ++ (reading judge verdict place before above first).parts) second) }
{}

/// Items are refused at the first refused one: the refusal has this item's place, and its reason is the reader's own or the one
/// above for a part which the item completed.
pub fn refusals_are_of_the_first_refused_item<I, P>()
    ensures { (judge : Judge I P) (verdict : Verdict P) (place : List I → ℕ) (before : List I)
        (above : List P) (items : List I)
        (refused : Refused) → (reading judge verdict place before above items).refusal
        ≡ Some refused
        → HasRefused judge verdict place before above items refused }
{}
