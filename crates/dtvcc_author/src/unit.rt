ghost use Rattle.std.specs.Prelude.{◌≡◌, ◌++◌, [], ◌∷◌, OnOk, map};

use arrayvec::ArrayVec;
use std::alloc::AllocError;
use std::marker::Model;

/// Units in the order in which they are sent, each seen as its bytes: one command or one character each, which is not divided
/// between frames.
#[derive(Drop)]
pub struct DUnits {
    units: Vec<ArrayVec<u8, 7>>,
}

impl Model for DUnits {
    ghost use Rattle.std.specs.Prelude.{List, ℕ, map};

    ghost Value = { List (List ℕ) };

    ghost view = { λ units. map (λ unit. unit.items) units.units.items };
}

impl DUnits {
    /// These units, which takes no memory.
    pub fn from_vec(units: Vec<ArrayVec<u8, 7>>) -> DUnits
        ensures { result ≡ map (λ unit. unit.items) units.items }
    {
        DUnits { units }
    }

    /// Appends a unit.
    pub(crate) fn push(&mut self, unit: ArrayVec<u8, 7>) -> Result<(), AllocError>
        ensures { OnOk result (self.new ≡ self.old ++ unit.items ∷ []) }
    {
        self.units.push(unit)?;
        Ok(())
    }

    /// The units as a vector, which takes no memory.
    pub fn into_vec(self) -> Vec<ArrayVec<u8, 7>>
        ensures { map (λ unit. unit.items) result.items ≡ self }
    {
        self.units
    }

    /// The units in order.
    pub fn as_slice(&self) -> &[ArrayVec<u8, 7>]
        ensures { map (λ unit. unit.items) result.now ≡ self.now }
    {
        self.units.as_slice()
    }
}
