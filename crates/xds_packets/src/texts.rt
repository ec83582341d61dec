ghost use Rattle.std.specs.Prelude.{◌≡◌, ◌≤◌, ◌<◌, ◌+◌, List, [], ◌∷◌, ◌++◌, length, true, false};

use std::marker::Model;

/// The text of a packet, seen as the list of its bytes, of which there are at most 32 (CTA-608-E).
#[derive(Drop)]
pub struct XdsText {
    bytes: [u8; 32],
    len: usize,
}

impl Model for XdsText {
    ghost use Rattle.std.specs.Prelude.{ℕ, ◌≤◌, List, take};

    ghost Value = { List ℕ };

    ghost view = { λ text. take text.len text.bytes };

    ghost invariant = { λ text. text.len ≤ 32 };
}

impl XdsText {
    /// No bytes.
    pub fn new() -> XdsText
        ensures { result ≡ [] }
    {
        XdsText {
            bytes: [0; 32],
            len: 0,
        }
    }

    /// These bytes.
    pub fn of(bytes: &[u8]) -> XdsText
        requires { length bytes.now ≤ 32 }
        ensures { result ≡ bytes.now }
    {
        let mut text = [0; 32];
        text[..bytes.len()].copy_from_slice(bytes);
        XdsText {
            bytes: text,
            len: bytes.len(),
        }
    }

    /// The bytes.
    pub fn as_slice(&self) -> &[u8]
        ensures bytes { result.now ≡ self.now }
        ensures length { length self.now ≤ 32 }
    {
        &self.bytes[..self.len]
    }

    /// Adds a byte. Whether there was room for it.
    pub fn push(&mut self, byte: u8) -> bool
        ensures fits { length self.new ≤ 32 }
        ensures added { result ≡ true → self.new ≡ self.old ++ byte ∷ [] }
        ensures full { result ≡ false → 32 < length self.old + 1 }
    {
        if self.len < 32 {
            self.bytes[self.len] = byte;
            self.len += 1;
            true
        } else {
            false
        }
    }
}
