ghost use Rattle.std.specs.Prelude.{◌≡◌, ◌<◌, ◌+◌, [], List, ℕ, IfErr, IfOk, length};
ghost use Rattle.mcc_commands.specs.Importing.{HasHeard, HearsMore, SomeHeard};

use cc_base::Refusal;
use std::alloc::{AllocError, Global};
use words_reading::Receiver;

/// Hears the words of packets, and counts their bytes.
#[derive(Drop)]
pub struct Hearer {
    receiver: Receiver,
    // How many bytes of words were heard.
    pub(crate) heard: u64,
}

impl Hearer {
    /// One that heard nothing.
    pub(crate) fn new(alloc: Global) -> Result<Hearer, AllocError>
        ensures { IfOk result (HasHeard []) }
    {
        Ok(Hearer {
            receiver: Receiver::new(alloc)?,
            heard: 0,
        })
    }

    /// Hears words, unless one of them is refused: then its place is the number of its first byte among all bytes of words, and the hearer
    /// is of no use any more.
    pub(crate) fn hear(&mut self, words: &[u8]) -> Result<(), Refusal>
        requires few { self.old.heard + length words.now < 4294967295 }
        requires heard { SomeHeard self.old }
        ensures { (before : List ℕ) → HasHeard before self.old
            → HearsMore before words.now self.new result }
    {
        let mut rest = words;
        while !rest.is_empty() {
            match self.receiver.feed(rest) {
                Ok(fed) => {
                    self.heard += fed.used as u64;
                    rest = &rest[fed.used..];
                }
                Err(refusal) => return Err(refusal),
            }
        }
        Ok(())
    }
}
