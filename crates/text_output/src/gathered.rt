ghost use Rattle.std.specs.Prelude.{◌≡◌, ◌≤◌, ◌++◌, ◌∷◌, [], false, true, decimal, encode_utf8, length};
ghost use Rattle.std.specs.List.{flat_map};
ghost use Rattle.cc_base.specs.Streams.{PutCause, Puts};
ghost use Rattle.cc_base.specs.declared.streams.Put.TheVariants as put;

use arrayvec::ArrayVec;
use cc_base::{Put, Sink};
use itoa::Buffer;

/// Bytes that are gathered before one put.
pub const ROOM: usize = 65_536;

/// A text on its way to a sink, gathered so that a run's cost isn't its number of puts.
///
/// A text is added piece by piece, each with the answer of its put. Or it is written: it begins with `begin`, and what follows a put
/// that failed is left out, which `answer` tells.
#[derive(Drop)]
pub struct Gathered {
    held: ArrayVec<u8, ROOM>,
    // What the puts of the text that is being written answered.
    answer: Put,
}

impl Gathered {
    ghost use Rattle.text_output.specs.Gathered.{Flushes, Gathers, answer_of, held_of};
    ghost use Rattle.text_output.specs.Pages.{Adds, Finishes, PutsPiece, page};

    /// A text of which nothing is held.
    pub fn new() -> Gathered
        ensures { held_of result ≡ [] }
    {
        Gathered {
            held: ArrayVec::new(),
            answer: Put::Done,
        }
    }

    /// Adds a piece of at most `ROOM` bytes. What was held is put first where the piece doesn't fit after it.
    pub fn add<O: Sink>(&mut self, piece: &[u8], out: &mut O) -> Put
        requires { length piece.now ≤ ROOM }
        ensures bytes { Gathers (O.written out.old) (O.written out.new) (held_of self.old)
            (held_of self.new) result piece.now }
        ensures cause { PutCause (O.faults out.old) (O.faults out.new) result }
    {
        if self.held.try_extend_from_slice(piece).is_ok() {
            return Put::Done;
        }
        match self.flush(out) {
            Put::Done => {}
            Put::Failed => return Put::Failed,
        }
        if self.held.try_extend_from_slice(piece).is_err() {
            unreachable!();
        }
        Put::Done
    }

    /// Puts what is held, if anything is.
    pub fn flush<O: Sink>(&mut self, out: &mut O) -> Put
        ensures bytes { Flushes (O.written out.old) (O.written out.new) (held_of self.old)
            (held_of self.new) result }
        ensures cause { PutCause (O.faults out.old) (O.faults out.new) result }
    {
        if self.held.is_empty() {
            return Put::Done;
        }
        match out.put(self.held.as_slice()) {
            Put::Done => {
                self.held.clear();
                Put::Done
            }
            Put::Failed => Put::Failed,
        }
    }

    /// Begins a text that is written after what is held.
    pub fn begin(&mut self)
        ensures held { held_of self.new ≡ held_of self.old }
        ensures answer { answer_of self.new ≡ put.Done }
    {
        self.answer = Put::Done;
    }

    /// What the puts of the text that was begun last answered: Failed from the first one on that failed.
    pub fn answer(&self) -> Put
        ensures { result ≡ answer_of self.now }
    {
        self.answer
    }

    /// Puts what is held of the text that is being written, unless a put failed since it was begun, and gives what its puts answered.
    pub fn finish<O: Sink>(&mut self, out: &mut O) -> Put
        ensures { Finishes (page self.old (O.written out.old) (O.faults out.old))
            (O.written out.new) (O.faults out.new) result }
    {
        match self.answer {
            Put::Failed => Put::Failed,
            Put::Done => self.flush(out),
        }
    }

    /// Writes a piece of any length, unless a put failed since the text was begun.
    pub fn write<O: Sink>(&mut self, piece: &[u8], out: &mut O)
        ensures { Adds O.written O.faults self.old out.old self.new out.new piece.now }
    {
        match self.answer {
            Put::Failed => {}
            Put::Done => {
                let answer = self.put_piece(piece, out);
                self.answer = answer;
            }
        }
    }

    // Adds a piece of any length: one that is longer than the room is put after what is held.
    fn put_piece<O: Sink>(&mut self, piece: &[u8], out: &mut O) -> Put
        ensures bytes { PutsPiece (O.written out.old) (O.written out.new) (held_of self.old)
            (held_of self.new) result piece.now }
        ensures cause { PutCause (O.faults out.old) (O.faults out.new) result }
    {
        if piece.len() <= ROOM {
            return self.add(piece, out);
        }
        match self.flush(out) {
            Put::Done => out.put(piece),
            Put::Failed => Put::Failed,
        }
    }

    /// Writes several pieces, one after another.
    pub fn write_all<O: Sink>(&mut self, pieces: &[&[u8]], out: &mut O)
        ensures { Adds O.written O.faults self.old out.old self.new out.new
            (flat_map (λ p. p.now) pieces.now) }
    {
        for piece in pieces {
            self.write(piece, out);
        }
    }

    /// Writes a number.
    pub fn write_number<O: Sink>(&mut self, number: u32, out: &mut O)
        ensures { Adds O.written O.faults self.old out.old self.new out.new (decimal number) }
    {
        self.write(Buffer::new().format(number).as_bytes(), out);
    }

    /// Writes a number of 64 bits.
    pub fn write_long<O: Sink>(&mut self, long: u64, out: &mut O)
        ensures { Adds O.written O.faults self.old out.old self.new out.new (decimal long) }
    {
        self.write(Buffer::new().format(long).as_bytes(), out);
    }

    /// Writes a character in UTF-8.
    pub fn write_character<O: Sink>(&mut self, ch: char, out: &mut O)
        ensures { Adds O.written O.faults self.old out.old self.new out.new (encode_utf8 ch) }
    {
        if ch.is_ascii() {
            self.write_byte(ch as u8, out);
        } else {
            self.write_encoded(ch, out);
        }
    }

    // Writes a byte: it is held without a look at the sink, if there is room for it.
    fn write_byte<O: Sink>(&mut self, byte: u8, out: &mut O)
        ensures { Adds O.written O.faults self.old out.old self.new out.new (byte ∷ []) }
    {
        match self.answer {
            Put::Failed => {}
            Put::Done => {
                if !self.hold(byte) {
                    self.write(&[byte], out);
                }
            }
        }
    }

    // Holds a byte after the others, if there is room for it.
    fn hold(&mut self, byte: u8) -> bool
        ensures held { result ≡ true → held_of self.new ≡ held_of self.old ++ byte ∷ [] }
        ensures same { result ≡ false → self.new ≡ self.old }
        ensures answer { answer_of self.new ≡ answer_of self.old }
    {
        self.held.try_push(byte).is_ok()
    }

    // Writes a character as the bytes of its UTF-8.
    fn write_encoded<O: Sink>(&mut self, ch: char, out: &mut O)
        ensures { Adds O.written O.faults self.old out.old self.new out.new (encode_utf8 ch) }
    {
        let mut bytes = [0; 4];
        self.write(ch.encode_utf8(&mut bytes).as_bytes(), out);
    }
}
