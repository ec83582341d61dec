ghost use Rattle.cc_base.specs.Streams.{PutCause, Puts};
ghost use Rattle.frame_carrier.specs.Framing.{Framing, HasFraming, words_of};

use crate::Carrier;
use crate::programme::Programme;
use arrayvec::ArrayVec;
use cc_base::{Put, Sink};
use frame_scheduler::Frames;
use text_output::Gathered;

/// Puts the ancillary packets of a programme's frames, gathered so that a put has many frames'.
pub fn put_words<F: Frames + Drop, O: Sink>(programme: Programme<F>, out: &mut O) -> Put
    ensures bytes { (framing : Framing) → HasFraming F.left F.Gives framing programme
        → Puts (O.written out.old) (O.written out.new) result (words_of framing) }
    ensures cause { PutCause (O.faults out.old) (O.faults out.new) result }
{
    let mut gathered = Gathered::new();
    let mut carrier = Carrier::new(programme.rate);
    let mut frames = programme.frames;
    let mut words = ArrayVec::new();
    while let Some(pairs) = frames.next() {
        carrier.put_words(&pairs, &mut words);
        match gathered.add(&words, out) {
            Put::Done => words.clear(),
            Put::Failed => return Put::Failed,
        }
    }
    gathered.flush(out)
}
