ghost use Rattle.std.specs.Prelude.{◌≡◌, [], ◌∷◌, ◌++◌, OnOk, OnErr};

use line21_codes::Pair;
use std::alloc::{AllocError, Global};
use std::marker::Model;

/// The pairs of an SCC file, seen as the list of them in order, each with its frame.
#[derive(Drop)]
pub struct SccPairs {
    items: Vec<(u32, Pair)>,
}

impl Model for SccPairs {
    ghost use Rattle.std.specs.Prelude.{List, ℕ};
    ghost use Rattle.line21_codes.specs.declared.pairs.Pair.{Pair};

    ghost Value = { List (ℕ × Pair) };

    ghost view = { λ p. p.items.items };
}

impl SccPairs {
    /// No pairs, which takes no memory.
    pub fn new(alloc: Global) -> SccPairs
        ensures { result ≡ [] }
    {
        SccPairs {
            items: Vec::new(alloc),
        }
    }

    /// The pairs in order.
    pub fn as_slice(&self) -> &[(u32, Pair)]
        ensures { result.now ≡ self.now }
    {
        self.items.as_slice()
    }

    /// The pairs, which takes no memory.
    pub fn into_vec(self) -> Vec<(u32, Pair)>
        ensures { result.items ≡ self }
    {
        self.items
    }

    /// Adds a pair at the end. Without memory the pairs stay as they were.
    pub fn push(&mut self, placed: (u32, Pair)) -> Result<(), AllocError>
        ensures ok { OnOk result (self.new ≡ self.old ++ placed ∷ []) }
        ensures err { OnErr result (self.new ≡ self.old) }
    {
        self.items.push(placed)?;
        Ok(())
    }
}
