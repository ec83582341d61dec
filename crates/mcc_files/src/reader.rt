ghost use Rattle.std.specs.Prelude.{◌≡◌, ◌≤◌, ◌<◌, ◌++◌, ◌∷◌, ◌&&◌, [], length, List, ℕ, Ok, Err, IfSome, MatchOption, MatchResult, is_some, nat_lt, ◌+◌};
ghost use Rattle.scc_files.specs.Lines.{IsLineEnd};
ghost use Rattle.mcc_files.specs.Phases.{HasNumbersInRange, most_text};
ghost use Rattle.mcc_files.specs.MccFiles.{frame_after};
ghost use Rattle.mcc_files.specs.Reading.{begins_time, judged_frame};
ghost use Rattle.time_codes.specs.Texts.{time_of_text};

use crate::phase::{Phase, RateText, is_blank, is_letter, is_name_byte, matched};
use crate::{Item, Offence, PayloadReader};
use arrayvec::ArrayVec;
use cc_base::Why;
use time_codes::{Counting, TimeCode, frame_in, read_time_bytes, time_in};

/// The text of the first line of version 1.
const FIRST_TEXT: [u8; 31] = *b"File Format=MacCaption_MCC V1.0";

/// Whether the text of some time code begins so.
fn begins_time(text: &[u8]) -> bool
    requires { length text.now ≤ 11 }
    ensures { result ≡ begins_time text.now }
{
    let mut whole = *b"00:00:00:00";
    whole[..text.len()].copy_from_slice(text);
    read_time_bytes(&whole).is_some()
}

/// No time code's text goes on.
const NO_TIME: Offence = Offence {
    back: 0,
    why: Why::MccSyntax,
};

/// The frame of a time code after another frame: its frame of the day, or after midnight that frame counted on from the day's number
/// of frames. NoSuchTime comes where no frame has the time code, and Backwards where it stands before the other frame and midnight isn't
/// passed, or not for the first time.
fn frame_after(count: Counting, last: u32, time: TimeCode) -> Result<u32, Why>
    ensures { result ≡ frame_after count last time }
{
    let frame = frame_in(count, time)?;
    let day = count.day_frames();
    let at = if last < day { frame } else { day + frame };
    if last <= at {
        return Ok(at);
    }
    if last < day && time_in(count, last).h == 23 && time.h == 0 {
        return Ok(day + frame);
    }
    Err(Why::Backwards)
}

/// The frame of a whole text of a time code after the last one, or the offence from its first byte on.
fn judged_frame(count: Option<Counting>, last: Option<u32>, text: &[u8]) -> Result<u32, Offence>
    ensures { MatchResult result
        (λ frame. judged_frame count last (time_of_text text.now) ≡ Ok frame)
        (λ offence. judged_frame count last (time_of_text text.now) ≡ Err offence) }
{
    let (Some(count), Some(time)) = (count, read_time_bytes(text)) else {
        return Err(NO_TIME);
    };
    match frame_after(count, last.unwrap_or(0), time) {
        Ok(frame) => Ok(frame),
        Err(why) => Err(Offence { back: 10, why }),
    }
}

/// What follows the line end, LF or CR LF, with which bytes begin; None exactly where they begin with none.
fn behind_line_end(bytes: &[u8]) -> Option<&[u8]>
    ensures { MatchOption result
        ((end rest : List ℕ) → IsLineEnd end → bytes.now ≡ end ++ rest → ⊥)
        (λ rest. (end : List ℕ) × IsLineEnd end × (bytes.now ≡ end ++ rest.now)) }
{
    if let [b'\n', rest @ ..] = bytes {
        return Some(rest);
    }
    let [b'\r', b'\n', rest @ ..] = bytes else {
        return None;
    };
    Some(rest)
}

/// A reader of an MCC file, byte by byte, that takes no memory: the packets at their frames, or the first offence.
#[derive(Drop)]
pub struct MccReader {
    // where the bytes have ended within the form
    phase: Phase,
    // whether the first line is of version 2
    two: bool,
    // the time code rate, once it has come
    count: Option<Counting>,
    // the frame of the last time code, counted on over midnight
    last: Option<u32>,
    // the bytes of an open time code's text
    text: ArrayVec<u8, 11>,
    // the payload that is open, or was last
    payload: PayloadReader,
    ghost within: { HasNumbersInRange phase },
    ghost room: { length text.items ≤ most_text phase },
}

impl MccReader {
    ghost use Rattle.time_codes.specs.Texts.{is_digit};
    ghost use Rattle.mcc_files.specs.MccFiles.{TimedPackets};
    ghost use Rattle.mcc_files.specs.Phases.{rate_moved, why_in};
    ghost use Rattle.mcc_files.specs.declared.phase.Phase.TheVariants as phase;
    ghost use Rattle.mcc_files.specs.Reading.{awaits_payload, begun, ends, first_read, goes, in_phase, name_read, payload_read, rate_read, taken, time_read, within};
    ghost use Rattle.mcc_files.specs.Readers.{Finishes, HasRead, IsBehindLine, StepsTo, TakesByte, TakesOn, back_in, is_at_start, item_in, packet_in, read_bytes, state_of};
    ghost use Rattle.mcc_files.specs.PayloadReaders.{open_of};

    /// A reader of no bytes.
    pub fn new() -> MccReader
        ensures { HasRead [] [] result }
    {
        MccReader {
            phase: Phase::First(0),
            two: false,
            count: None,
            last: None,
            text: ArrayVec::new(),
            payload: PayloadReader::new(),
        }
    }

    /// A reader that has read the same.
    pub fn copied(&self) -> MccReader
        ensures { (before : List ℕ) (placed : TimedPackets) → HasRead before placed self.now
            → HasRead before placed result }
    {
        let mut text = ArrayVec::new();
        if text.try_extend_from_slice(&self.text).is_err() {
            unreachable!();
        }
        MccReader {
            phase: self.phase,
            two: self.two,
            count: self.count,
            last: self.last,
            text,
            payload: self.payload.copied(),
        }
    }

    /// Reads the packet's line with which bytes begin, after what `before` has read, in place of all that was read here: how many bytes the
    /// line has. It has a time code's text, TAB, a payload, and LF or CR LF, of which nothing offends. None where no line begins with the next
    /// byte, or the bytes begin with no such line. Then a reader that takes them one by one tells what stands there, and this one is of no use
    /// until it reads such a line.
    pub fn read_line_behind(&mut self, before: &MccReader, bytes: &[u8]) -> Option<usize>
        ensures { IfSome result (λ count. IsBehindLine before.now bytes.now count self.new) }
    {
        if !before.is_at_start() {
            return None;
        }
        let (time, rest) = bytes.split_first_chunk::<11>()?;
        let [b'\t', rest @ ..] = rest else {
            return None;
        };
        let Ok(frame) = judged_frame(before.count, before.last, time) else {
            return None;
        };
        let behind = self.payload.read_payload(rest)?;
        let after = behind_line_end(behind)?;
        self.phase = Phase::Start;
        self.two = before.two;
        self.count = before.count;
        self.last = Some(frame);
        self.text = ArrayVec::from(*time);
        Some(bytes.len() - after.len())
    }

    /// Whether a line begins with the next byte, after the first line.
    pub fn is_at_start(&self) -> bool
        ensures { result ≡ is_at_start self.now.phase }
    {
        matches!(self.phase, Phase::Start)
    }

    // No line goes on.
    fn no_line(&self) -> Offence
        ensures { result ≡ record { back = 0; why = why_in self.now.phase } }
    {
        Offence {
            back: 0,
            why: self.phase.why(),
        }
    }

    // Whether the line may end here, and whether it is a packet's.
    fn ends(&self) -> Option<bool>
        ensures { result ≡ ends (state_of self.now []) }
    {
        match self.phase {
            Phase::FirstSpaces
            | Phase::Start
            | Phase::Blank
            | Phase::Comment
            | Phase::Value
            | Phase::RateSpaces => Some(false),
            Phase::Rate(RateText::Whole(_)) => Some(false),
            Phase::Payload if self.payload.is_whole() => Some(true),
            Phase::Behind => Some(true),
            _ => None,
        }
    }

    // Goes on to a phase where a test passes.
    fn go_on_if(&mut self, test: bool, phase: Phase) -> Result<(), Offence>
        requires numbers { HasNumbersInRange phase }
        requires room { length self.old.text.items ≤ most_text phase }
        ensures { StepsTo (λ s. taken s test (in_phase s phase)) self.old self.new result }
    {
        if !test {
            return Err(self.no_line());
        }
        self.phase = phase;
        Ok(())
    }

    // Takes a byte of the first line's text, whose 29th says the version.
    fn first_byte(&mut self, at: u8, byte: u8) -> Result<(), Offence>
        requires { at < 31 }
        ensures { StepsTo (λ s. first_read s at byte) self.old self.new result }
    {
        if at == 28 && byte == b'2' {
            self.two = true;
            self.phase = Phase::First(29);
            return Ok(());
        }
        let next = if at == 30 {
            Phase::FirstSpaces
        } else {
            Phase::First(at + 1)
        };
        self.go_on_if(byte == FIRST_TEXT[at as usize], next)
    }

    // Takes the first byte of a time code's text.
    fn begin_time(&mut self, byte: u8) -> Result<(), Offence>
        ensures { StepsTo (λ s. taken s (is_digit byte && is_some s.count)
            (record s { phase = phase.Time; text = byte ∷ [] })) self.old self.new result }
    {
        if !byte.is_ascii_digit() || self.count.is_none() {
            return Err(self.no_line());
        }
        self.text = ArrayVec::new();
        self.text.push(byte);
        self.phase = Phase::Time;
        Ok(())
    }

    // Takes the first byte of a line.
    fn begin_line(&mut self, byte: u8) -> Result<(), Offence>
        ensures { StepsTo (λ s. begun s byte) self.old self.new result }
    {
        if is_blank(byte) {
            self.phase = Phase::Blank;
            Ok(())
        } else if byte == b'/' {
            self.phase = Phase::Slash;
            Ok(())
        } else if is_letter(byte) {
            let matched = if byte == b'T' { 1 } else { 0 };
            let before_packets = self.last.is_none();
            self.go_on_if(before_packets, Phase::Name(matched))
        } else {
            self.begin_time(byte)
        }
    }

    // Takes a byte of an attribute's name, or the sign after it.
    fn name_byte(&mut self, before: u8, byte: u8) -> Result<(), Offence>
        requires { before ≤ 14 }
        ensures { StepsTo (λ s. name_read s before byte) self.old self.new result }
    {
        if byte != b'=' {
            return self.go_on_if(is_name_byte(byte), Phase::Name(matched(before, byte)));
        }
        if before != 14 {
            self.phase = Phase::Value;
            return Ok(());
        }
        if self.count.is_some() {
            return Err(Offence {
                back: 14,
                why: Why::MccSyntax,
            });
        }
        self.phase = Phase::Rate(RateText::Empty);
        Ok(())
    }

    // Takes a byte of the text of a count, or a space after it.
    fn rate_byte(&mut self, text: RateText, byte: u8) -> Result<(), Offence>
        ensures { StepsTo (λ s. rate_read s text
            (rate_moved text byte) byte) self.old self.new result }
    {
        if let Some(next) = text.moved(byte) {
            self.phase = Phase::Rate(next);
            self.count = next.count();
            return Ok(());
        }
        self.go_on_if(text.count().is_some() && byte == b' ', Phase::RateSpaces)
    }

    // Takes a byte of a time code's text.
    fn time_byte(&mut self, byte: u8) -> Result<(), Offence>
        requires { self.old.phase ≡ phase.Time }
        ensures { StepsTo (λ s. time_read s (s.text ++ byte ∷ [])) self.old self.new result }
    {
        self.phase = Phase::Timed;
        self.text.push(byte);
        if self.text.len() == 11 {
            return match judged_frame(self.count, self.last, &self.text) {
                Ok(frame) => {
                    self.last = Some(frame);
                    Ok(())
                }
                Err(offence) => Err(offence),
            };
        }
        if !begins_time(&self.text) {
            return Err(NO_TIME);
        }
        self.phase = Phase::Time;
        Ok(())
    }

    // Takes a byte of a payload, or a blank after it.
    fn payload_byte(&mut self, byte: u8) -> Result<(), Offence>
        ensures { StepsTo (λ s. payload_read s byte) self.old self.new result }
    {
        if self.payload.is_whole() {
            return self.go_on_if(is_blank(byte), Phase::Behind);
        }
        self.payload.take(byte)
    }

    // Whether a TAB here begins a payload.
    fn awaits_payload(&self) -> bool
        ensures { result ≡ awaits_payload self.now.phase }
    {
        match self.phase {
            Phase::Timed | Phase::Field => true,
            Phase::Digits(count) => 0 < count,
            _ => false,
        }
    }

    // Takes a digit after a comma.
    fn digit_byte(&mut self, count: u8, byte: u8) -> Result<(), Offence>
        requires { count ≤ 5 }
        ensures { StepsTo (λ s. taken s (nat_lt count 5 && is_digit byte)
            (in_phase s (phase.Digits (count + 1)))) self.old self.new result }
    {
        if count < 5 && byte.is_ascii_digit() {
            self.phase = Phase::Digits(count + 1);
            Ok(())
        } else {
            Err(self.no_line())
        }
    }

    // Takes a byte that begins no payload.
    fn go(&mut self, byte: u8) -> Result<(), Offence>
        ensures { StepsTo (λ s. goes s s.phase byte) self.old self.new result }
    {
        match self.phase {
            Phase::First(at) => self.first_byte(at, byte),
            Phase::FirstSpaces => self.go_on_if(byte == b' ', Phase::FirstSpaces),
            Phase::FirstEnd => Err(self.no_line()),
            Phase::Start => self.begin_line(byte),
            Phase::Blank => self.go_on_if(is_blank(byte), Phase::Blank),
            Phase::Slash => self.go_on_if(byte == b'/', Phase::Comment),
            Phase::Comment => Ok(()),
            Phase::Name(before) => self.name_byte(before, byte),
            Phase::Value => Ok(()),
            Phase::Rate(text) => self.rate_byte(text, byte),
            Phase::RateSpaces => self.go_on_if(byte == b' ', Phase::RateSpaces),
            Phase::Time => self.time_byte(byte),
            Phase::Timed => self.go_on_if(self.two && byte == b'.', Phase::Dot),
            Phase::Dot => self.go_on_if(byte == b'0' || byte == b'1', Phase::Field),
            Phase::Field => self.go_on_if(byte == b',', Phase::Digits(0)),
            Phase::Digits(count) => self.digit_byte(count, byte),
            Phase::Payload => self.payload_byte(byte),
            Phase::Behind => self.go_on_if(is_blank(byte), Phase::Behind),
            Phase::End(_) => Err(self.no_line()),
        }
    }

    // Takes a byte within a line.
    fn within(&mut self, byte: u8) -> Result<(), Offence>
        ensures { StepsTo (λ s. within s s.phase byte) self.old self.new result }
    {
        if self.awaits_payload() && byte == b'\t' {
            self.payload = PayloadReader::new();
            self.phase = Phase::Payload;
            return Ok(());
        }
        self.go(byte)
    }

    // Takes an LF, with which a line ends.
    fn take_lf(&mut self) -> Result<bool, Offence>
        ensures { TakesByte self.old self.new 10 result }
    {
        let ends = match self.phase {
            Phase::FirstEnd => Some(false),
            Phase::End(packet) => Some(packet),
            _ => self.ends(),
        };
        let Some(packet) = ends else {
            return Err(self.no_line());
        };
        self.phase = Phase::Start;
        Ok(packet)
    }

    // Takes a CR, after which a line has to end.
    fn take_cr(&mut self) -> Result<bool, Offence>
        ensures { TakesByte self.old self.new 13 result }
    {
        let Some(packet) = self.ends() else {
            return Err(self.no_line());
        };
        self.phase = match self.phase {
            Phase::FirstSpaces => Phase::FirstEnd,
            _ => Phase::End(packet),
        };
        Ok(false)
    }

    // Takes a byte.
    fn step(&mut self, byte: u8) -> Result<bool, Offence>
        ensures { TakesByte self.old self.new byte result }
    {
        match byte {
            b'\n' => self.take_lf(),
            b'\r' => self.take_cr(),
            _ => match self.within(byte) {
                Ok(()) => Ok(false),
                Err(offence) => Err(offence),
            },
        }
    }

    /// Takes a byte of a file, after those that it took before, of which none offended: whether the line of a packet has ended
    /// with it, which is then the packet of `frame` and `bytes`. The file may come in any pieces. After an offence a reader is of no use.
    ///
    /// Err comes exactly where the byte is the first that offends, or ends the first time code, item or name of a time code rate that
    /// does. It says how many bytes before this byte the offence is. Header comes at a byte that no first line has. MccSyntax comes
    /// at one that no line can continue with, and at a letter of a payload that brings a byte too many. It comes too at the first
    /// byte of a line with a second time code rate. NoSuchTime and Backwards come at the first byte of a time code, and AncSum at the
    /// first byte of a checksum byte's item.
    pub fn take(&mut self, byte: u8) -> Result<bool, Offence>
        ensures { (before : List ℕ) (placed : TimedPackets) → HasRead before placed self.old
            → TakesOn before placed byte self.new result }
    {
        self.step(byte)
    }

    /// The item of the open payload that ends with a byte, if one does, and how many of its bytes a payload can continue with; else no bytes.
    pub fn item(&self, byte: u8) -> Item
        ensures bytes { result.bytes.items ≡ item_in self.now.phase (open_of self.now.payload) byte }
        ensures back { result.back ≡ back_in self.now.phase (open_of self.now.payload) }
        ensures room { 0 < length result.bytes.items
            → length (read_bytes self.now) + length result.bytes.items ≤ 259 }
    {
        match self.phase {
            Phase::Payload => self.payload.item(byte),
            _ => Item {
                bytes: ArrayVec::new(),
                back: 0,
            },
        }
    }

    /// Ends the file: whether a packet's line ends with it, which is then the packet of `frame` and `bytes`.
    ///
    /// Err comes exactly where the bytes are no file, and so end too soon: Header within the first line, else MccSyntax.
    pub fn finish(&self) -> Result<bool, Why>
        ensures { (before : List ℕ) (placed : TimedPackets) → HasRead before placed self.now
            → Finishes before placed self.now result }
    {
        match self.ends() {
            Some(packet) => Ok(packet),
            None => Err(self.phase.why()),
        }
    }

    /// The frame of the packet whose line is open, or ended last: its time code's frame of the day, counted by the time code rate, and
    /// after midnight counted on from the day's number of frames.
    pub fn frame(&self) -> u32
        ensures { result ≡ (packet_in self.now).0 }
    {
        self.last.unwrap_or(0)
    }

    /// Its bytes as far as its items were read: DID, SDID, count, user bytes and the checksum byte.
    pub fn bytes(&self) -> &[u8]
        ensures { result.now ≡ read_bytes self.now }
    {
        self.payload.bytes()
    }
}
