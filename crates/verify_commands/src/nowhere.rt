ghost use Rattle.std.specs.Prelude.{None};

use cc_base::{Put, Sink};

/// A sink that takes all and tells nothing, for words of which nothing is put.
#[derive(Clone, Copy)]
pub struct Nowhere;

impl Sink for Nowhere {
    ghost written = { λ sink. None };

    ghost faults = { λ sink. 0 };

    fn put(&mut self, bytes: &[u8]) -> Put {
        Put::Done
    }
}
