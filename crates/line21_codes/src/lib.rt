//! The codes of line 21 closed captions (CTA-608-E, 47 CFR 79.101): pairs of bytes with odd parity,
//! the codes that they stand for, and how a code is written as a pair. Also how a character is
//! spelled, and which control pairs are the repeats that a receiver ignores.
#![tactic(auto)]

mod channels;
mod characters;
mod codes;
mod doubling;
pub mod laws;
mod pairs;
mod reading;
mod styles;
mod writing;

pub use channels::{Chan, DataChannel, FieldNumber};
pub use characters::{Spelling, basic_char, extended_char, special_char, spell};
pub use codes::{Code, Control};
pub use doubling::Doubler;
pub use pairs::{BadParity, NULL_PAIR, Pair, parity};
pub use reading::read_pair;
pub use styles::{Cell, Colour, Style, italic_mark, underline_mark};
pub use writing::write_code;
