ghost use Rattle.std.specs.Prelude.{◌≡◌, ◌≤◌, ◌<◌, ◌+◌, ◌++◌, [], ◌*◌, length, take, true, false, Ok, EachIndex, slice_index};
ghost use Rattle.mcc_files.specs.Payloads.{Payload, payload_bytes};
ghost use Rattle.mcc_files.specs.PayloadWords.{payload_words};
ghost use Rattle.mcc_files.specs.PayloadReading.{is_whole, joined};
ghost use Rattle.mcc_commands.specs.Words.{eight_words, open_words};
ghost use Rattle.anc_words.specs.Writing.{eight_bit_word, word_bytes};

use anc_words::write_packet;
use arrayvec::ArrayVec;

/// The most bytes of a packet in a payload: DID, SDID, count, 255 user bytes and the checksum byte.
pub(crate) const PAYLOAD: usize = 259;

/// The most bytes of its words.
pub(crate) const ROOM: usize = 524;

/// The bytes of the ancillary data flag 000 3FF 3FF.
const FLAG: [u8; 6] = [0x00, 0x00, 0x03, 0xFF, 0x03, 0xFF];

/// The 8-bit word of a byte, high byte first: bit 8 is even parity of bits 7 to 0, and bit 9 is the inverse of bit 8.
fn eight_bit(byte: u8) -> [u8; 2]
    ensures { result ≡ word_bytes (eight_bit_word byte) }
{
    let high = if byte.count_ones() % 2 == 1 { 1 } else { 2 };
    [high, byte]
}

/// Whether the bytes of a payload are a whole packet's.
fn are_whole(bytes: &[u8]) -> bool
    ensures { result ≡ is_whole bytes.now }
{
    bytes.len() > 3 && bytes.len() - 3 > usize::from(bytes[2])
}

/// What the bytes of a whole packet in a payload say: DID, SDID and the user bytes.
pub(crate) fn said(bytes: &[u8]) -> (u8, u8, &[u8])
    requires { 4 ≤ length bytes.now }
    ensures says { (payload : Payload) → bytes.now ≡ payload_bytes payload
        → (result.0 ≡ payload.did) × (result.1 ≡ payload.sdid)
        × (result.2.now ≡ payload.user) }
    ensures small { EachIndex bytes.now (λ k. slice_index bytes.now k < 256) }
{
    (bytes[0], bytes[1], &bytes[3..bytes.len() - 1])
}

/// Adds bytes for which there is room.
pub(crate) fn add<const SIZE: usize>(more: &[u8], out: &mut ArrayVec<u8, SIZE>)
    requires { length out.old.items + length more.now ≤ SIZE }
    ensures { out.new.items ≡ out.old.items ++ more.now }
{
    if out.try_extend_from_slice(more).is_err() {
        unreachable!();
    }
}

/// Adds the 8-bit words of bytes.
fn add_eight_bit(bytes: &[u8], out: &mut ArrayVec<u8, ROOM>)
    requires few { length bytes.now ≤ 259 }
    requires room { length out.old.items ≤ 6 }
    ensures { out.new.items ≡ out.old.items ++ eight_words bytes.now }
{
    for byte in bytes {
        add(&eight_bit(*byte), out);
    }
}

/// How many bytes the words have of this many bytes of a payload.
fn words_size(bytes: usize) -> usize
    requires { bytes ≤ 259 }
    ensures none { bytes ≡ 0 → result ≡ 0 }
    ensures some { 0 < bytes → result ≡ 6 + 2 * bytes }
{
    if bytes == 0 { 0 } else { 6 + 2 * bytes }
}

/// How many bytes the words have of bytes of a payload, this many after the first ones.
pub(crate) fn words_more(first: usize, more: usize) -> u64
    requires { 0 < more → first + more ≤ 259 }
    ensures none { more ≡ 0 → result ≡ 0 }
    ensures begun { 0 < more → first ≡ 0 → result ≡ 6 + 2 * more }
    ensures on { 0 < first → result ≡ 2 * more }
    ensures small { result ≤ 524 }
{
    if more == 0 {
        return 0;
    }
    (words_size(first + more) - words_size(first)) as u64
}

/// The words of the packet of these bytes, into an empty `out`.
pub(crate) fn put_packet(bytes: &[u8], out: &mut ArrayVec<u8, ROOM>)
    requires whole { (payload : Payload) × (bytes.now ≡ payload_bytes payload) }
    requires few { length bytes.now ≤ 259 }
    requires empty { out.old.items ≡ [] }
    ensures { (payload : Payload) → bytes.now ≡ payload_bytes payload
        → out.new.items ≡ payload_words payload }
{
    let (did, sdid, user) = said(bytes);
    write_packet(did, sdid, user, out);
}

/// The last words of the packet of these bytes, after the words of this many bytes, into an empty `out`.
fn add_last(from: usize, bytes: &[u8], out: &mut ArrayVec<u8, ROOM>)
    requires from { from ≤ length bytes.now }
    requires few { length bytes.now ≤ 259 }
    requires goes { joined true [] bytes.now ≡ Ok bytes.now }
    requires whole { is_whole bytes.now ≡ true }
    requires fewer { is_whole (take from bytes.now) ≡ false }
    requires empty { out.old.items ≡ [] }
    ensures { open_words (take from bytes.now) ++ out.new.items ≡ open_words bytes.now }
{
    let mut words = ArrayVec::new();
    put_packet(bytes, &mut words);
    let size = words_size(from);
    add(&words[size..], out);
}

/// The words of bytes of a payload after the first ones, this many, into an empty `out`. With the first byte's comes the ancillary data
/// flag, and of a checksum byte comes the checksum word (SMPTE ST 291-1).
pub(crate) fn put_words(from: usize, bytes: &[u8], out: &mut ArrayVec<u8, ROOM>)
    requires from { from < length bytes.now }
    requires few { length bytes.now ≤ 259 }
    requires goes { joined true [] bytes.now ≡ Ok bytes.now }
    requires fewer { is_whole (take from bytes.now) ≡ false }
    requires empty { out.old.items ≡ [] }
    ensures { open_words (take from bytes.now) ++ out.new.items ≡ open_words bytes.now }
{
    if are_whole(bytes) {
        add_last(from, bytes, out);
        return;
    }
    if from == 0 {
        add(&FLAG, out);
        add_eight_bit(bytes, out);
        return;
    }
    add_eight_bit(&bytes[from..], out);
}
