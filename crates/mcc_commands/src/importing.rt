ghost use Rattle.std.specs.Prelude.{◌≡◌, ◌<◌, ◌≤◌, ◌+◌, ◌-◌, ◌∷◌, ◌++◌, ℕ, List, [], true, Option, IfOk, IfSome, length};
ghost use Rattle.mcc_files.specs.MccFiles.{TimedPackets};
ghost use Rattle.mcc_files.specs.Readers.{HasRead, is_at_start};
ghost use Rattle.text_output.specs.Gathered.{IsGathered, held_of};
ghost use Rattle.words_reading.specs.Judging.{StopCause};
ghost use Rattle.mcc_commands.specs.Importing.{HasLines, IsFirstLine, LineOffends, ReadsLine};
ghost use Rattle.mcc_commands.specs.Offences.{ItemWordOffends};

use crate::hearing::Hearer;
use crate::import_stop::MccStop;
use crate::item_words::{PAYLOAD, ROOM, add, put_packet, put_words, words_more};
use crate::made::Made;
use arrayvec::ArrayVec;
use cc_base::{Refusal, Sink, Why};
use mcc_files::MccReader;
use std::alloc::{AllocError, Global};
use std::mem;
use text_output::Gathered;
use words_reading::Stop;

/// An import on its way: the bytes of the file, their words, and what is made of the packets. Lines of packets that stand whole in what
/// is taken at once are taken line by line, and all else byte by byte. All memory that it takes is taken by `new`.
#[derive(Drop)]
pub struct Importing {
    reader: MccReader,
    hearer: Hearer,
    made: Made,
    // How many bytes of the file were taken.
    place: u64,
    // Room for the reader after a line, and for the words of a packet.
    ahead: MccReader,
    words: ArrayVec<u8, ROOM>,
}

/// Reads a packet's line: how many bytes it has. None where the first line is none, doesn't end within the bytes, or offends; then the reader
/// is of no use any more.
fn read_line(reader: &mut MccReader, bytes: &[u8]) -> Option<usize>
    ensures { (before : List ℕ) (placed : TimedPackets) → HasRead before placed reader.old
        → HasLines before placed
        → IfSome result (λ count. IsFirstLine before placed bytes.now count reader.new) }
{
    let mut count = 0;
    for byte in bytes {
        count += 1;
        match reader.take(*byte) {
            Ok(true) => return Some(count),
            Ok(false) if *byte != b'\n' => {}
            _ => return None,
        }
    }
    None
}

/// The same of bytes after those that a reader took, byte by byte, with `ahead`, whatever it read.
#[cold]
fn read_copied(reader: &MccReader, bytes: &[u8], ahead: &mut MccReader) -> Option<usize>
    ensures { (before : List ℕ) (placed : TimedPackets) → HasRead before placed reader.now
        → HasLines before placed
        → IfSome result (λ count. IsFirstLine before placed bytes.now count ahead.new) }
{
    *ahead = reader.copied();
    read_line(ahead, bytes)
}

/// The same, if a line begins after them, and in one go where it has a time code, a tab and a payload and nothing else.
fn read_ahead(reader: &MccReader, bytes: &[u8], ahead: &mut MccReader) -> Option<usize>
    ensures start { IfSome result (λ _. is_at_start reader.now.phase ≡ true) }
    ensures line { (before : List ℕ) (placed : TimedPackets) → HasRead before placed reader.now
        → HasLines before placed
        → IfSome result (λ count. IsFirstLine before placed bytes.now count ahead.new) }
{
    if !reader.is_at_start() {
        return None;
    }
    if let Some(count) = ahead.read_line_behind(reader, bytes) {
        return Some(count);
    }
    read_copied(reader, bytes, ahead)
}

/// Where a word of the packet in a line offends in the text: at its item. The line begins at such a place, after this many bytes of words, and
/// the word's place is counted with them.
fn offence_in(reader: &MccReader, line: &[u8], place: u64, heard: u64, word: Refusal) -> Refusal
    requires { LineOffends reader.now line.now place heard word }
    ensures { (had : LineOffends reader.now line.now place heard word)
        → ItemWordOffends (had.before ++ line.now) result }
{
    let mut ahead = reader.copied();
    let mut place = place;
    let mut heard = heard;
    for byte in line {
        let item = ahead.item(*byte);
        heard += words_more(ahead.bytes().len(), item.bytes.len());
        if word.place + 1 < heard {
            return Refusal {
                place: place.saturating_sub(u64::from(item.back)),
                why: word.why,
            };
        }
        if ahead.take(*byte).is_err() {
            unreachable!();
        }
        place += 1;
    }
    unreachable!()
}

impl Importing {
    ghost use Rattle.mcc_files.specs.Readers.{HasWholeBytes, packet_in};
    ghost use Rattle.mcc_commands.specs.Importing.{AddsPacket, AreFile, EndsFile, HasEnded, HasImported, IsMade, JudgesItem, KeepsAllElse, MayTake, MayTakeAll, MayTakeLine, SomeEnded, TakesBytes, TakesNext};
    ghost use Rattle.mcc_commands.specs.declared.import_stop.MccStop.TheVariants as stop;

    /// An import that took nothing.
    pub(crate) fn new(alloc: Global) -> Result<Importing, AllocError>
        ensures { IfOk result (HasImported [] []) }
    {
        Ok(Importing {
            reader: MccReader::new(),
            hearer: Hearer::new(alloc)?,
            made: Made::new(),
            place: 0,
            ahead: MccReader::new(),
            words: ArrayVec::new(),
        })
    }

    /// Something offends, this many bytes before the one that is taken.
    fn offends(&self, back: u8, why: Why) -> MccStop
        ensures { result ≡ stop.Offends (record { place = self.now.place - back; why = why }) }
    {
        MccStop::Offends(Refusal {
            place: self.place.saturating_sub(u64::from(back)),
            why,
        })
    }

    /// Judges the words of the item that ends with a byte, if one does, as far as a payload can continue with it.
    fn judge(&mut self, byte: u8) -> Result<(), MccStop>
        requires { MayTake self.old 1 }
        ensures { (bytes words : List ℕ) (had : HasImported bytes words self.old)
            → JudgesItem bytes had.placed byte self.old self.new result }
    {
        let item = self.reader.item(byte);
        if item.bytes.len() == 0 {
            return Ok(());
        }
        let mut bytes: ArrayVec<u8, PAYLOAD> = ArrayVec::new();
        add(self.reader.bytes(), &mut bytes);
        add(&item.bytes, &mut bytes);
        let mut words = ArrayVec::new();
        put_words(self.reader.bytes().len(), &bytes, &mut words);
        match self.hearer.hear(&words) {
            Ok(()) => Ok(()),
            Err(refusal) => Err(self.offends(item.back, refusal.why)),
        }
    }

    /// Adds the words of the packet whose line has ended, which are written first.
    fn end_line<O: Sink>(&mut self, text: &mut Gathered, out: &mut O) -> Result<(), Stop<MccStop>>
        requires whole { HasWholeBytes self.old.reader }
        requires ended { SomeEnded self.old.reader }
        ensures adds { (placed : TimedPackets) (words : List ℕ) (start : Option (List ℕ))
            → IsMade placed words self.old.made
            → IsGathered start (O.written out.old) (held_of text.old) words
            → AddsPacket placed words (packet_in self.old.reader) start (O.written out.new)
            (held_of text.new) self.new.made result }
        ensures file { (placed : TimedPackets) → HasEnded placed self.old.reader self.old.hearer
            → AreFile (placed ++ packet_in self.old.reader ∷ []) }
        ensures keeps { KeepsAllElse self.old self.new }
        ensures cause { StopCause (O.faults out.old) (O.faults out.new) result }
    {
        self.words.clear();
        put_packet(self.reader.bytes(), &mut self.words);
        self.made.add_packet(&self.reader, &self.words, text, out)
    }

    /// Takes a byte of the file.
    fn take<O: Sink>(
        &mut self,
        byte: u8,
        text: &mut Gathered,
        out: &mut O,
    ) -> Result<(), Stop<MccStop>>
        requires { MayTake self.old 1 }
        ensures takes { (bytes words : List ℕ) (start : Option (List ℕ))
            → HasImported bytes words self.old
            → IsGathered start (O.written out.old) (held_of text.old) words
            → TakesBytes start (O.written out.new) (held_of text.new) (bytes ++ byte ∷ []) self.new
            result }
        ensures cause { StopCause (O.faults out.old) (O.faults out.new) result }
    {
        if let Err(why) = self.judge(byte) {
            return Err(Stop::Own(why));
        }
        match self.reader.take(byte) {
            Ok(ended) => {
                self.place += 1;
                if ended {
                    self.end_line(text, out)
                } else {
                    Ok(())
                }
            }
            Err(offence) => Err(Stop::Own(self.offends(offence.back, offence.why))),
        }
    }

    /// Takes a packet's line, which `ahead` has read: its words are heard at once.
    fn take_line<O: Sink>(
        &mut self,
        line: &[u8],
        text: &mut Gathered,
        out: &mut O,
    ) -> Result<(), Stop<MccStop>>
        requires { MayTakeLine self.old line.now }
        ensures takes { (before words : List ℕ) (start : Option (List ℕ))
            (had : HasImported before words self.old)
            → ReadsLine before had.placed line.now self.old.ahead
            → IsGathered start (O.written out.old) (held_of text.old) words
            → TakesBytes start (O.written out.new) (held_of text.new) (before ++ line.now) self.new
            result }
        ensures cause { StopCause (O.faults out.old) (O.faults out.new) result }
    {
        self.words.clear();
        put_packet(self.ahead.bytes(), &mut self.words);
        let heard = self.hearer.heard;
        if let Err(word) = self.hearer.hear(&self.words) {
            let refusal = offence_in(&self.reader, line, self.place, heard, word);
            return Err(Stop::Own(MccStop::Offends(refusal)));
        }
        mem::swap(&mut self.reader, &mut self.ahead);
        self.place += line.len() as u64;
        self.made.add_packet(&self.reader, &self.words, text, out)
    }

    /// Takes the next line, if it is a packet's and stands whole in the bytes, of which there are some, and else the next byte: how many bytes.
    fn take_next<O: Sink>(
        &mut self,
        bytes: &[u8],
        text: &mut Gathered,
        out: &mut O,
    ) -> Result<usize, Stop<MccStop>>
        requires may { MayTake self.old (length bytes.now) }
        requires some { 0 < length bytes.now }
        ensures takes { (before words : List ℕ) (start : Option (List ℕ))
            → HasImported before words self.old
            → IsGathered start (O.written out.old) (held_of text.old) words
            → TakesNext start (O.written out.new) (held_of text.new) before bytes.now self.new
            result }
        ensures some { IfOk result (λ count. 0 < count) }
        ensures within { IfOk result (λ count. count ≤ length bytes.now) }
        ensures cause { StopCause (O.faults out.old) (O.faults out.new) result }
    {
        if let Some(count) = read_ahead(&self.reader, bytes, &mut self.ahead) {
            self.take_line(&bytes[..count], text, out)?;
            return Ok(count);
        }
        self.take(bytes[0], text, out)?;
        Ok(1)
    }

    /// Takes bytes of the file.
    pub(crate) fn take_all<O: Sink>(
        &mut self,
        bytes: &[u8],
        text: &mut Gathered,
        out: &mut O,
    ) -> Result<(), Stop<MccStop>>
        requires { MayTakeAll (O.written out.old) (held_of text.old) self.old (length bytes.now) }
        ensures takes { (before words : List ℕ) (start : Option (List ℕ))
            → HasImported before words self.old
            → IsGathered start (O.written out.old) (held_of text.old) words
            → TakesBytes start (O.written out.new) (held_of text.new) (before ++ bytes.now) self.new
            result }
        ensures cause { StopCause (O.faults out.old) (O.faults out.new) result }
    {
        let mut rest = bytes;
        while !rest.is_empty() {
            let count = self.take_next(rest, text, out)?;
            rest = &rest[count..];
        }
        Ok(())
    }

    /// Ends the file.
    pub(crate) fn end<O: Sink>(
        &mut self,
        text: &mut Gathered,
        out: &mut O,
    ) -> Result<(), Stop<MccStop>>
        requires { MayTake self.old 0 }
        ensures ends { (bytes words : List ℕ) (start : Option (List ℕ))
            → HasImported bytes words self.old
            → IsGathered start (O.written out.old) (held_of text.old) words
            → EndsFile start (O.written out.new) (held_of text.new) bytes result }
        ensures cause { StopCause (O.faults out.old) (O.faults out.new) result }
    {
        match self.reader.finish() {
            Ok(true) => self.end_line(text, out),
            Ok(false) => Ok(()),
            Err(why) => Err(Stop::Refused(Refusal {
                place: self.place,
                why,
            })),
        }
    }
}
