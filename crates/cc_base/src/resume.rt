ghost use Rattle.std.specs.Prelude.{◌≡◌, ℕ, ◌++◌, [], ◌∷◌, List, Option, Some, None};
ghost use Rattle.std.specs.Mem.{FitsInMemory};
ghost use Rattle.std.specs.Result.{result_err};
ghost use Rattle.cc_base.specs.declared.refusal.Refusal.{Refusal as Refused};
ghost use Rattle.cc_base.specs.Feeding.{Judge, Verdict, reading};

use crate::refusal::Refusal;
use crate::why::Why;

/// A layer that takes the parts which a reader hands upward.
pub trait Upward<P> {
    /// It was handed these parts, of which only the last may have been refused.
    ghost Took: { List P → Self → Type 0 };
    /// What it answers for a part after the parts before it.
    ghost verdict: { Verdict P };

    /// Takes the next part, or says why it is refused.
    fn part(&mut self, part: P) -> Result<(), Why>
        ensures answer { (before : List P) → Took before self.old
            → result_err result ≡ verdict before part }
        ensures took { (before : List P) → Took before self.old
            → Took (before ++ part ∷ []) self.new };
}

/// A reader that can be fed its items in any pieces, and hands the parts upward that they make.
pub trait Resume<I, P> {
    /// What a reader is made with.
    ghost Given: { Type 0 };
    /// What it makes of an item after the items before it.
    ghost judge: { Given → Judge I P };
    /// The place of the next item after these.
    ghost place: { List I → ℕ };
    /// These items, none of which was refused, lead to it.
    ghost Leads: { Given → List I → Self → Type 0 };
    /// The refusal that it keeps.
    ghost refusal: { Self → Option Refused };

    /// Reads the next items. Each part is handed upward as soon as it is whole, in order. An item is refused for its own
    /// reason, or for the reason above for the part which it completed; the refusal is kept, and answered from then on with
    /// nothing read and nothing handed upward.
    ///
    /// Feeding two pieces in turn answers, hands upward and leads to what feeding both at once does.
    fn feed<U: Upward<P>>(&mut self, input: &[I], up: &mut U) -> Result<(), Refusal>
        ensures answer { (given : Given) (before : List I) (above : List P)
            → Leads given before self.old → U.Took above up.old
            → result_err result ≡ (reading
            (judge given) U.verdict place before above input.now).refusal }
        ensures handed { (given : Given) (before : List I) (above : List P)
            → Leads given before self.old → U.Took above up.old
            → U.Took (above ++ (reading
            (judge given) U.verdict place before above input.now).parts) up.new }
        ensures leads { (given : Given) (before : List I) (above : List P)
            → Leads given before self.old → U.Took above up.old
            → result_err result ≡ None → Leads given (before ++ input.now) self.new }
        ensures kept { (refused : Refused) → refusal self.old ≡ Some refused
            → (result_err result ≡ Some refused) × (self.new ≡ self.old) × (up.new ≡ up.old) }
        ensures told { refusal self.new ≡ result_err result };

    /// A reader that refused none of its items keeps no refusal.
    ghost is_open: { (given : Given) (items : List I) (reader : Self) → Leads given items reader → refusal reader ≡ None };
    /// An item has a size.
    ghost item_fits: { FitsInMemory I.row };
}
