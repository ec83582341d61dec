ghost use Rattle.std.specs.Prelude.{◌≡◌, List, [], ◌∷◌};
ghost use Rattle.line21_codes.specs.declared.pairs.Pair.{Pair};

use crate::pairs::Pair;

/// Tells the repeats among the pairs of one field: control pairs are sent twice and act once.
#[derive(Clone, Copy, PartialEq, Eq)]
pub struct Doubler {
    // The pair before, where it is a control pair that was not itself a repeat.
    waiting: Option<Pair>,
}

impl Default for Doubler {
    ghost use Rattle.line21_codes.specs.Repeats.{Waits};

    ghost is_default = { λ doubler. Waits [] doubler };

    /// A field that had no pair yet.
    fn default() -> Doubler {
        Doubler::new()
    }
}

impl Doubler {
    ghost use Rattle.line21_codes.specs.Repeats.{is_ignored, is_waiting, Waits};

    /// A field that had no pair yet.
    pub fn new() -> Doubler
        ensures { Waits [] result }
    {
        Doubler { waiting: None }
    }

    /// Takes the field's next pair, and tells whether it is to be ignored: exactly the pairs with odd
    /// numbers of each longest stretch of equal control pairs, counted from 0. Pairs are equal where
    /// their bytes are, parity bits included, and a pair with bad parity is no control pair
    /// (CTA-608-E, 47 CFR 79.101).
    pub fn step(&mut self, pair: Pair) -> bool
        ensures ignored { (before : List Pair) → Waits before self.old
            → result ≡ is_ignored before pair }
        ensures waits { (before : List Pair) → Waits before self.old
            → Waits (pair ∷ before) self.new }
    {
        let ignored = self.is_waiting(pair);
        let is_first = pair.is_control() & !ignored;
        self.waiting = is_first.then_some(pair);
        ignored
    }

    fn is_waiting(&self, pair: Pair) -> bool
        ensures { result ≡ is_waiting self.now.waiting pair }
    {
        match self.waiting {
            Some(waiting) => waiting.a == pair.a && waiting.b == pair.b,
            None => false,
        }
    }
}
