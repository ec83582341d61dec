ghost use Rattle.std.specs.Prelude.{◌≡◌, ◌+◌, ◌^◌, ◌++◌, ◌<◌, ◌≤◌, [], ◌∷◌, All, IfOk, OnErr, OnOk, length, map, slice_index_or};
ghost use Rattle.std.specs.List.{concat};
ghost use Rattle.dtvcc_author.specs.Packed.{bytes_before};

use crate::unit::DUnits;
use arrayvec::ArrayVec;
use std::alloc::{AllocError, Global};
use std::marker::Model;

/// Units in the order in which they are sent, each seen as its bytes. They are kept as the bytes of all, one unit after the
/// other, and the length of each, so that a unit takes one byte more than it has.
#[derive(Drop)]
pub struct PackedUnits {
    bytes: Vec<u8>,
    lengths: Vec<u8>,
}

impl Model for PackedUnits {
    ghost use Rattle.std.specs.Prelude.{List, ℕ};
    ghost use Rattle.dtvcc_author.specs.Packed.{ArePacked, divided};

    ghost Value = { List (List ℕ) };

    ghost view = { λ units. divided units.lengths.items units.bytes.items };

    ghost invariant = { λ units. ArePacked units.lengths.items units.bytes.items };
}

impl PackedUnits {
    /// No units, which takes no memory.
    pub fn new(alloc: Global) -> PackedUnits
        ensures { result ≡ [] }
    {
        PackedUnits {
            bytes: Vec::new(alloc),
            lengths: Vec::new(alloc),
        }
    }

    /// Appends a unit.
    pub(crate) fn push(&mut self, unit: ArrayVec<u8, 7>) -> Result<(), AllocError>
        ensures { OnOk result (self.new ≡ self.old ++ unit.items ∷ []) }
    {
        let before = self.bytes.len();
        push_bytes(&mut self.bytes, unit.as_slice())?;
        if let Err(error) = self.lengths.push(unit.len() as u8) {
            self.bytes.truncate(before);
            return Err(error.into());
        }
        Ok(())
    }

    /// Appends a unit of one byte.
    #[inline(always)]
    pub(crate) fn push_byte(&mut self, byte: u8) -> Result<(), AllocError>
        ensures { OnOk result (self.new ≡ self.old ++ (byte ∷ []) ∷ []) }
    {
        let before = self.bytes.len();
        self.bytes.push(byte)?;
        if let Err(error) = self.lengths.push(1) {
            self.bytes.truncate(before);
            return Err(error.into());
        }
        Ok(())
    }

    /// The bytes of all units, one unit after the other.
    pub fn bytes(&self) -> &[u8]
        ensures { result.now ≡ concat self.now }
    {
        self.bytes.as_slice()
    }

    /// The number of bytes of each unit.
    pub fn lengths(&self) -> &[u8]
        ensures lengths { result.now ≡ map length self.now }
        ensures small { All (λ size. size ≤ 7) result.now }
        ensures counted { length self.now < 2 ^ 64 }
        ensures measured { length (concat self.now) < 2 ^ 64 }
    {
        self.lengths.as_slice()
    }

    /// The number of units.
    pub fn len(&self) -> usize
        ensures { result ≡ length self.now }
    {
        self.lengths.len()
    }

    /// A unit, whose bytes start after the earlier units' bytes.
    pub fn unit(&self, index: usize, start: usize) -> &[u8]
        requires index { index < length self.now }
        requires start { start ≡ bytes_before index self.now }
        ensures unit { result.now ≡ slice_index_or self.now index [] }
        ensures small { length result.now ≤ 7 }
        ensures counted { index + 1 < 2 ^ 64 }
        ensures measured { start + length result.now < 2 ^ 64 }
    {
        let size = usize::from(self.lengths[index]);
        &self.bytes[start..start + size]
    }

    /// The units as a vector of them.
    pub(crate) fn unpack(&self, alloc: Global) -> Result<DUnits, AllocError>
        ensures { IfOk result (λ units. units ≡ self.now) }
    {
        let mut units = DUnits::from_vec(Vec::new(alloc));
        let mut rest = self.bytes();
        for size in self.lengths() {
            let (unit, behind) = rest.split_at(usize::from(*size));
            units.push(unit_of(unit))?;
            rest = behind;
        }
        Ok(units)
    }
}

// Appends bytes.
fn push_bytes(bytes: &mut Vec<u8>, more: &[u8]) -> Result<(), AllocError>
    ensures ok { OnOk result (bytes.new.items ≡ bytes.old.items ++ more.now) }
    ensures err { OnErr result (bytes.new.items ≡ bytes.old.items) }
{
    match more {
        [byte] => bytes.push(*byte)?,
        _ => bytes.extend_from_slice(more)?,
    }
    Ok(())
}

// The unit of these bytes.
fn unit_of(bytes: &[u8]) -> ArrayVec<u8, 7>
    requires { length bytes.now ≤ 7 }
    ensures { result.items ≡ bytes.now }
{
    let mut unit = ArrayVec::new();
    unit.try_extend_from_slice(bytes).unwrap();
    unit
}
