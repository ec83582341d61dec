ghost use Rattle.std.specs.Prelude.{ℕ, ◌<◌, List, Option, length};
ghost use Rattle.cc_base.specs.Streams.{PutCause, Puts, PutsEmpty, TakeCause, Takes};

/// What a take answered.
#[derive(Clone, Copy, PartialEq, Eq)]
pub enum Took {
    /// This many bytes, at least one, stand at the front of the buffer.
    Got(usize),
    /// No byte is left.
    End,
    /// The source failed; its count of faults rose.
    Failed,
}

/// Where bytes come from.
pub trait Source {
    /// The bytes that it still has, where it tells them.
    ghost left: { Self → Option (List ℕ) };
    /// A count that never falls, and rises with each fault.
    ghost faults: { Self → ℕ };

    /// Takes the next bytes into the front of `buf`, which isn't empty.
    fn take(&mut self, buf: &mut [u8]) -> Took
        requires { 0 < length buf.old }
        ensures bytes { Takes (left self.old) (left self.new) result buf.new }
        ensures cause { TakeCause (faults self.old) (faults self.new) result };
}

/// What a put answered.
#[derive(Clone, Copy, PartialEq, Eq)]
pub enum Put {
    /// The whole piece is written.
    Done,
    /// The sink failed with a front of the piece written; its count of faults rose.
    Failed,
}

/// Where bytes go.
pub trait Sink {
    /// The bytes written so far, where it tells them.
    ghost written: { Self → Option (List ℕ) };
    /// A count that never falls, and rises with each fault.
    ghost faults: { Self → ℕ };

    /// Writes a piece. An empty piece is done and changes nothing.
    fn put(&mut self, bytes: &[u8]) -> Put
        ensures bytes { Puts (written self.old) (written self.new) result bytes.now }
        ensures cause { PutCause (faults self.old) (faults self.new) result }
        ensures empty { PutsEmpty (written self.old) (written self.new) result bytes.now };
}
