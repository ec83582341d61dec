ghost use Rattle.std.specs.Prelude.{◌≡◌};

use std::marker::Model;

/// The text of a run, seen as the list of its characters.
#[derive(Drop)]
pub struct Text {
    chars: Vec<char>,
}

impl Model for Text {
    ghost use Rattle.std.specs.Prelude.{List, ℕ};

    ghost Value = { List ℕ };

    ghost view = { λ t. t.chars.items };
}

impl Text {
    /// The text of these characters, which takes no memory.
    pub fn from_vec(chars: Vec<char>) -> Text
        ensures { result ≡ chars.items }
    {
        Text { chars }
    }

    /// The characters, which takes no memory.
    pub fn into_vec(self) -> Vec<char>
        ensures { result.items ≡ self }
    {
        self.chars
    }

    /// The characters in order.
    pub fn as_slice(&self) -> &[char]
        ensures { result.now ≡ self.now }
    {
        self.chars.as_slice()
    }
}
