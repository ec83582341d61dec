ghost use Rattle.std.specs.Prelude.{◌≡◌};
ghost use Rattle.cc_base.specs.Streams.{PutCause, Puts};
ghost use Rattle.load_commands.specs.LoadOutput.{summary_text};

use cc_base::{Put, Sink, put_pieces};
use itoa::Buffer;

/// What came of a list of captions.
#[derive(Clone, Copy, PartialEq, Eq)]
pub(crate) struct Summary {
    /// The number of captions.
    pub cues: u32,
    /// The number of frames.
    pub frames: u32,
    /// The bytes of words that were fed to a receiver.
    pub bytes: u32,
    /// The frames at which it showed something else than before.
    pub changes: u32,
}

impl Summary {
    /// Puts the four lines.
    pub(crate) fn put<O: Sink>(self, out: &mut O) -> Put
        ensures bytes { Puts (O.written out.old) (O.written out.new) result (summary_text self) }
        ensures cause { PutCause (O.faults out.old) (O.faults out.new) result }
    {
        put_pieces(
            &[
                b"cues ",
                Buffer::new().format(self.cues).as_bytes(),
                b"\nframes ",
                Buffer::new().format(self.frames).as_bytes(),
                b"\nbytes ",
                Buffer::new().format(self.bytes).as_bytes(),
                b"\nchanges ",
                Buffer::new().format(self.changes).as_bytes(),
                b"\n",
            ],
            out,
        )
    }
}
