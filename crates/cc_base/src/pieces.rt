ghost use Rattle.std.specs.List.{flat_map};
ghost use Rattle.cc_base.specs.Streams.{PutCause, Puts};

use crate::streams::{Put, Sink};

/// Puts several pieces one after another, as one piece.
pub fn put_pieces<O: Sink>(pieces: &[&[u8]], out: &mut O) -> Put
    ensures bytes { Puts (O.written out.old) (O.written out.new) result
        (flat_map (λ p. p.now) pieces.now) }
    ensures cause { PutCause (O.faults out.old) (O.faults out.new) result }
{
    for piece in pieces {
        match out.put(piece) {
            Put::Done => {}
            Put::Failed => return Put::Failed,
        }
    }
    Put::Done
}
