ghost use Rattle.std.specs.Prelude.{◌≡◌};

use line21_codes::Pair;
use std::marker::Model;

/// A pair to be sent in one field: a control pair is sent twice, in two slots that follow one
/// another, and a text pair once (CTA-608-E; 47 CFR 79.101).
#[derive(Clone, Copy, PartialEq, Eq)]
pub struct Unit {
    pub pair: Pair,
    pub doubled: bool,
}

impl Unit {
    ghost use Rattle.line21_author.specs.UnitSlots.{repeat_of_unit, unit_slots};

    /// The number of slots that the unit takes: 2 where it is doubled, else 1.
    pub fn slots(self) -> u32
        ensures { result ≡ unit_slots self }
    {
        if self.doubled { 2 } else { 1 }
    }

    /// The pair that is due once more, in the slot after the one in which the unit begins.
    pub fn repeat(self) -> Option<Pair>
        ensures { result ≡ repeat_of_unit self }
    {
        self.doubled.then_some(self.pair)
    }
}

/// Units in the order in which they are sent, seen as their list.
#[derive(Drop)]
pub struct Units {
    units: Vec<Unit>,
}

impl Model for Units {
    ghost use Rattle.std.specs.Prelude.{List};
    ghost use Rattle.line21_author.specs.declared.unit.Unit.{Unit};

    ghost Value = { List Unit };

    ghost view = { λ units. units.units.items };
}

impl Units {
    /// These units, which takes no memory.
    pub fn from_vec(units: Vec<Unit>) -> Units
        ensures { result ≡ units.items }
    {
        Units { units }
    }

    /// The units as a vector, which takes no memory.
    pub fn into_vec(self) -> Vec<Unit>
        ensures { result.items ≡ self }
    {
        self.units
    }

    /// The units in order.
    pub fn as_slice(&self) -> &[Unit]
        ensures { result.now ≡ self.now }
    {
        self.units.as_slice()
    }
}
