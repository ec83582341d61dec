ghost use Rattle.std.specs.Prelude.{[], ◌∷◌, codes, decimal};
ghost use Rattle.cc_base.specs.Streams.{PutCause, Puts};
ghost use Rattle.cc_base.specs.Texts.{text};

use cc_base::{Put, Sink, put_pieces};
use itoa::Buffer;

/// Puts the line of a number of frames.
pub(crate) fn put_count<O: Sink>(frames: u32, out: &mut O) -> Put
    ensures bytes { Puts (O.written out.old) (O.written out.new) result
        (text (codes "frames " ∷ decimal frames ∷ codes "\n" ∷ [])) }
    ensures cause { PutCause (O.faults out.old) (O.faults out.new) result }
{
    put_pieces(
        &[b"frames ", Buffer::new().format(frames).as_bytes(), b"\n"],
        out,
    )
}
