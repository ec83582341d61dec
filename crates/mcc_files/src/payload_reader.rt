ghost use Rattle.std.specs.Prelude.{◌≡◌, ◌≤◌, ◌+◌, ◌*◌, ◌%◌, ◌<◌, ◌∷◌, [], List, ℕ, None, true, length, IfOk, IfSome, MatchOption};
ghost use Rattle.std.specs.Option.{ForSome};
ghost use Rattle.mcc_files.specs.Counts.{AreCounted, IsPacket, TakesByte};
ghost use Rattle.mcc_files.specs.PayloadReading.{is_whole};

use crate::ahead::add_items;
use crate::letters::letter_bytes;
use crate::payload_writer::checksum_byte;
use arrayvec::ArrayVec;
use cc_base::Why;
use hex_digits::hex_value;

/// The most bytes of a packet in a payload: DID, SDID, count, 255 user bytes and the checksum byte.
pub(crate) const ROOM: usize = 259;

/// What offends: the byte this many bytes before the last one, and the reason.
#[derive(Clone, Copy, PartialEq, Eq)]
pub struct Offence {
    /// How many bytes before the last one: 1 where an item of two digits offends, else 0.
    pub back: u8,
    /// The reason: MccSyntax or AncSum.
    pub why: Why,
}

/// No item begins or can continue with the byte.
const NO_ITEM: Offence = Offence {
    back: 0,
    why: Why::MccSyntax,
};

/// How many bytes a packet has so far, its count, once that has come, and the sum of the bytes, modulo 256.
#[derive(Clone, Copy)]
pub(crate) struct Counted {
    pub(crate) len: u16,
    pub(crate) count: u8,
    pub(crate) sum: u8,
}

/// No bytes.
const NOTHING: Counted = Counted {
    len: 0,
    count: 0,
    sum: 0,
};

impl Counted {
    /// Whether the bytes are a whole packet's.
    fn is_whole(self) -> bool
        ensures { (bytes : List ℕ) → AreCounted bytes self → result ≡ is_whole bytes }
    {
        self.len > 3 + u16::from(self.count)
    }

    /// Takes a byte more, unless it offends.
    fn take(&mut self, byte: u8) -> Result<(), Why>
        ensures takes { (bytes : List ℕ) → AreCounted bytes self.old
            → TakesByte bytes byte self.old self.new result }
        ensures short { IfOk result (λ _. self.new.len ≤ 259) }
    {
        if self.len >= 3 {
            let rest = self.len - 3;
            if rest > u16::from(self.count) {
                return Err(Why::MccSyntax);
            }
            if rest == u16::from(self.count) && byte != self.sum {
                return Err(Why::AncSum);
            }
        }
        if self.len == 2 {
            self.count = byte;
        }
        self.len += 1;
        self.sum = self.sum.wrapping_add(byte);
        Ok(())
    }
}

/// How bytes are counted that are a packet's with the right checksum byte; None exactly where they aren't.
fn counted_packet(bytes: &[u8]) -> Option<Counted>
    ensures packet { MatchOption result (IsPacket bytes.now → ⊥) (λ _. IsPacket bytes.now) }
    ensures counted { IfSome result (λ counted. AreCounted bytes.now counted) }
{
    let [did, sdid, count, rest @ ..] = bytes else {
        return None;
    };
    let (last, user) = rest.split_last()?;
    if user.len() != usize::from(*count) {
        return None;
    }
    let sum = checksum_byte(*did, *sdid, user);
    if *last != sum {
        return None;
    }
    Some(Counted {
        len: 4 + u16::from(*count),
        count: *count,
        sum: sum.wrapping_add(*last),
    })
}

/// An item of a payload, as its last byte ends it.
#[derive(Drop)]
pub struct Item {
    /// The bytes for which it stands, down to the first one with which no payload goes on.
    pub bytes: ArrayVec<u8, 27>,
    /// How many bytes before its last one it begins: 1 where it has two digits, else 0.
    pub back: u8,
}

/// A reader of a payload's text, byte by byte.
#[derive(Drop)]
pub struct PayloadReader {
    // the value of an open first digit
    digit: Option<u8>,
    // the bytes of the items before, and how they are counted
    bytes: ArrayVec<u8, ROOM>,
    counted: Counted,
    ghost counts: { AreCounted bytes.items counted },
    ghost short: { counted.len ≤ 259 },
    ghost digits: { ForSome digit (λ high. high < 16) },
}

impl PayloadReader {
    ghost use Rattle.hex_digits.specs.HexDigits.{hex_value};
    ghost use Rattle.mcc_files.specs.Letters.{letter_bytes};
    ghost use Rattle.mcc_files.specs.PayloadReading.{fitting, item_back, item_begins, item_bytes, may_end, nothing_open, second_digit, step};
    ghost use Rattle.mcc_files.specs.PayloadReaders.{IsBehindPayload, StepsTo, TakesItem, open_of};

    /// A reader of no bytes.
    pub fn new() -> PayloadReader
        ensures { open_of result ≡ nothing_open }
    {
        PayloadReader {
            digit: None,
            bytes: ArrayVec::new(),
            counted: NOTHING,
        }
    }

    // Makes it a reader of no bytes.
    fn clear(&mut self)
        ensures { open_of self.new ≡ nothing_open }
    {
        self.digit = None;
        self.bytes.clear();
        self.counted = NOTHING;
    }

    /// Reads the payload with which a text begins, in place of all that was read before, and gives what follows it there. None where the items
    /// with which the text begins, as many as there are and a packet has room for, don't stand for a whole packet with the right checksum
    /// byte. Then nothing is read, and a reader that takes the text byte by byte tells what stands there.
    pub fn read_payload<'a>(&mut self, text: &'a [u8]) -> Option<&'a [u8]>
        ensures { MatchOption result (open_of self.new ≡ nothing_open)
            (λ rest. IsBehindPayload text.now rest.now self.new) }
    {
        self.clear();
        let rest = add_items(text, &mut self.bytes);
        let Some(counted) = counted_packet(&self.bytes) else {
            self.bytes.clear();
            return None;
        };
        self.counted = counted;
        Some(rest)
    }

    /// A reader that has read the same.
    pub fn copied(&self) -> PayloadReader
        ensures { open_of result ≡ open_of self.now }
    {
        let mut bytes = ArrayVec::new();
        if bytes.try_extend_from_slice(&self.bytes).is_err() {
            unreachable!();
        }
        PayloadReader {
            digit: self.digit,
            bytes,
            counted: self.counted,
        }
    }

    /// Whether the text is a whole payload, so that it may end here.
    pub fn is_whole(&self) -> bool
        ensures { result ≡ may_end (open_of self.now) }
    {
        self.counted.is_whole()
    }

    /// The bytes for which the items stand that were read whole.
    pub fn bytes(&self) -> &[u8]
        ensures { result.now ≡ (open_of self.now).bytes }
    {
        self.bytes.as_slice()
    }

    // The first of the bytes of an item, down to one that offends.
    fn fitting(&self, brought: &[u8]) -> ArrayVec<u8, 27>
        requires { length brought.now ≤ 27 }
        ensures bytes { result.items ≡ fitting (open_of self.now).bytes brought.now }
        ensures room { length (open_of self.now).bytes + length result.items ≤ 259 }
    {
        let mut counted = self.counted;
        let mut fit = ArrayVec::new();
        for byte in brought {
            match counted.take(*byte) {
                Ok(()) => fit.push(*byte),
                Err(_) => return fit,
            }
        }
        fit
    }

    /// The item that ends with a byte, if one does, and how many of its bytes a payload can continue with; else no bytes.
    pub fn item(&self, byte: u8) -> Item
        ensures bytes { result.bytes.items ≡ item_bytes (open_of self.now) byte }
        ensures back { result.back ≡ item_back (open_of self.now).digit }
        ensures room { 0 < length result.bytes.items
            → length (open_of self.now).bytes + length result.bytes.items ≤ 259 }
    {
        match self.digit {
            Some(high) => {
                let bytes = match hex_value(byte) {
                    Some(low) => self.fitting(&[16 * high + low]),
                    None => ArrayVec::new(),
                };
                Item { bytes, back: 1 }
            }
            None => {
                let bytes = match letter_bytes(byte) {
                    Some(brought) => self.fitting(brought),
                    None => ArrayVec::new(),
                };
                Item { bytes, back: 0 }
            }
        }
    }

    // Takes the bytes of an item, unless one of them offends.
    fn take_item(&mut self, brought: &[u8]) -> Result<(), Why>
        ensures { TakesItem self.old brought.now self.new result }
    {
        let mut counted = self.counted;
        for byte in brought {
            match counted.take(*byte) {
                Ok(()) => {}
                Err(why) => return Err(why),
            }
        }
        if self.bytes.try_extend_from_slice(brought).is_err() {
            unreachable!();
        }
        self.counted = counted;
        self.digit = None;
        Ok(())
    }

    // Takes the second digit of an item whose first one has this value.
    fn second_digit(&mut self, high: u8, byte: u8) -> Result<(), Offence>
        requires { high < 16 }
        ensures { StepsTo (second_digit true (open_of self.old).bytes high
            (hex_value byte)) self.old self.new result }
    {
        let Some(low) = hex_value(byte) else {
            return Err(NO_ITEM);
        };
        match self.take_item(&[16 * high + low]) {
            Ok(()) => Ok(()),
            Err(why) => Err(Offence { back: 1, why }),
        }
    }

    // Takes the first byte of an item: a letter, or a first digit.
    fn first_of_item(&mut self, byte: u8) -> Result<(), Offence>
        requires { self.old.digit ≡ None }
        ensures { StepsTo (item_begins true (open_of self.old).bytes (letter_bytes byte)
            (hex_value byte)) self.old self.new result }
    {
        if let Some(bytes) = letter_bytes(byte) {
            return match self.take_item(bytes) {
                Ok(()) => Ok(()),
                Err(why) => Err(Offence { back: 0, why }),
            };
        }
        let Some(high) = hex_value(byte) else {
            return Err(NO_ITEM);
        };
        self.digit = Some(high);
        Ok(())
    }

    /// Takes a byte of the text. Where it offends nothing changes.
    ///
    /// MccSyntax comes exactly where no item begins or can continue with the byte, where a whole packet stands before it, and where a letter
    /// brings a byte too many. AncSum comes if the item brings a checksum byte with other bits than the low eight of the checksum word.
    /// Where an item of two digits offends, the offence is at its first digit.
    pub fn take(&mut self, byte: u8) -> Result<(), Offence>
        ensures { StepsTo (step true (open_of self.old) byte) self.old self.new result }
    {
        if self.is_whole() {
            return Err(NO_ITEM);
        }
        match self.digit {
            Some(high) => self.second_digit(high, byte),
            None => self.first_of_item(byte),
        }
    }
}
