ghost use Rattle.std.specs.Prelude.{◌≡◌, ◌≤◌, ◌<◌, ◌+◌, ◌*◌, ◌++◌, ℕ, List, [], length, map, take, drop, MatchOption, IfSome, None};
ghost use Rattle.anc_words.specs.CaptionWords.{low_of};
ghost use Rattle.arrayvec.specs.ArrayVec.{array_vec_len};
ghost use Rattle.mcc_files.specs.PayloadWriting.{FitsBest, FitsNone, IsWritten};
ghost use Rattle.mcc_files.specs.Payloads.{Payload, checksum_byte, payload_bytes};
ghost use Rattle.mcc_files.specs.PayloadWords.{IsPayloadOf};
ghost use Rattle.mcc_files.specs.Fillers.{AreAhead};

use arrayvec::ArrayVec;
use hex_digits::upper_hex_digit;

/// The most bytes of a payload: DID, SDID, the count, 255 user bytes and the checksum byte.
const MOST: usize = 259;

/// The bytes of the ancillary data flag, of three words.
const FLAG: usize = 6;

/// How many triplets FA 00 00 stand at the front of `bytes`, at most 9.
fn fillers_ahead(bytes: &[u8]) -> u8
    ensures { AreAhead result bytes.now }
{
    let mut rest = bytes;
    for count in 0..9 {
        match rest {
            [0xFA, 0, 0, behind @ ..] => rest = behind,
            _ => return count,
        }
    }
    9
}

/// The letter with the most bytes that `bytes` begin with, and how many these are; None where there is none.
fn letter_ahead(bytes: &[u8]) -> Option<(u8, usize)>
    ensures best { MatchOption result (FitsNone bytes.now)
        (λ found. FitsBest bytes.now found.0 (take found.1 bytes.now) (drop found.1 bytes.now)) }
    ensures some { IfSome result (λ found. 0 < found.1) }
    ensures within { IfSome result (λ found. found.1 ≤ length bytes.now) }
{
    match bytes {
        [0xFA, 0, 0, ..] => {
            let count = fillers_ahead(bytes);
            Some((b'F' + count, 3 * usize::from(count)))
        }
        [0xFB, 0x80, 0x80, ..] => Some((b'P', 3)),
        [0xFC, 0x80, 0x80, ..] => Some((b'Q', 3)),
        [0xFD, 0x80, 0x80, ..] => Some((b'R', 3)),
        [0x96, 0x69, ..] => Some((b'S', 2)),
        [0x61, 0x01, ..] => Some((b'T', 2)),
        [0, ..] => Some((b'Z', 1)),
        _ => None,
    }
}

/// Adds the text of the bytes of a packet to `out`, in which there is room for two bytes for each.
pub(crate) fn write_bytes<const ROOM: usize>(bytes: &[u8], out: &mut ArrayVec<u8, ROOM>)
    requires { array_vec_len out.old + 2 * length bytes.now ≤ ROOM }
    ensures written { (text : List ℕ) × IsWritten bytes.now text
        × (out.new.items ≡ out.old.items ++ text) }
    ensures few { array_vec_len out.new ≤ array_vec_len out.old + 2 * length bytes.now }
{
    let mut rest = bytes;
    while let [first, behind @ ..] = rest {
        match letter_ahead(rest) {
            Some((letter, size)) => {
                out.push(letter);
                rest = &rest[size..];
            }
            None => {
                out.push(upper_hex_digit(first / 16));
                out.push(upper_hex_digit(first % 16));
                rest = behind;
            }
        }
    }
}

/// The low one of a word's two bytes. It is taken from the word, since words one after another are read in one load, and every second
/// byte in a load each.
fn low_byte(word: [u8; 2]) -> u8
    ensures { result ≡ low_of word }
{
    ((256 * u16::from(word[0]) + u16::from(word[1])) % 256) as u8
}

/// Puts the low bytes of words into the front of `bytes`.
fn low_bytes(words: &[[u8; 2]], bytes: &mut [u8; MOST])
    requires { length words.now ≤ 259 }
    ensures { bytes.new ≡ map low_of words.now ++ drop (length words.now) bytes.old }
{
    for place in 0..words.len() {
        bytes[place] = low_byte(words[place]);
    }
}

/// Adds the payload of the packet of these bytes, whose user words are 8-bit words, to `out`, in which there is room for 518 bytes. It
/// has DID, SDID, count, the user bytes and the low eight bits of the checksum word (SMPTE ST 291-1). At each byte stands the letter
/// with the most bytes that fits, of `G` to `T` and `Z`, else two upper-case hex digits.
pub fn add_payload<const ROOM: usize>(packet: &[u8], out: &mut ArrayVec<u8, ROOM>)
    requires packet { (payload : Payload) × IsPayloadOf payload packet.now }
    requires room { array_vec_len out.old + 518 ≤ ROOM }
    ensures written { (payload : Payload) → IsPayloadOf payload packet.now
        → (text : List ℕ) × IsWritten (payload_bytes payload) text
        × (out.new.items ≡ out.old.items ++ text) }
    ensures few { array_vec_len out.new ≤ array_vec_len out.old + 518 }
{
    let (words, _) = packet[FLAG..].as_chunks::<2>();
    let mut bytes = [0; MOST];
    low_bytes(words, &mut bytes);
    write_bytes(&bytes[..words.len()], out);
}

/// The low eight bits of the checksum word of a packet.
pub(crate) fn checksum_byte(did: u8, sdid: u8, user: &[u8]) -> u8
    requires { length user.now ≤ 255 }
    ensures { result ≡ checksum_byte (record { did = did; sdid = sdid; user = user.now }) }
{
    let count = user.len() as u8;
    let mut sum = did.wrapping_add(sdid).wrapping_add(count);
    for byte in user {
        sum = sum.wrapping_add(*byte);
    }
    sum
}

/// Writes the payload of a packet with these identifiers and user bytes, at most 255, each an 8-bit word there, into `out`, which is
/// empty before. It has DID, SDID, count, the user bytes and the low eight bits of the checksum word (SMPTE ST 291-1). At each byte
/// stands the letter with the most bytes that fits, of `G` to `T` and `Z`, else two upper-case hex digits.
pub fn write_payload(did: u8, sdid: u8, user: &[u8], out: &mut ArrayVec<u8, 518>)
    requires few { length user.now ≤ 255 }
    requires empty { out.old.items ≡ [] }
    ensures { IsWritten (payload_bytes
        (record { did = did; sdid = sdid; user = user.now })) out.new.items }
{
    let mut bytes: ArrayVec<u8, 259> = ArrayVec::new();
    add(&[did, sdid, user.len() as u8], &mut bytes);
    add(user, &mut bytes);
    add(&[checksum_byte(did, sdid, user)], &mut bytes);
    write_bytes(&bytes, out);
}

/// Adds bytes for which there is room.
fn add(more: &[u8], bytes: &mut ArrayVec<u8, 259>)
    requires { length bytes.old.items + length more.now ≤ 259 }
    ensures { bytes.new.items ≡ bytes.old.items ++ more.now }
{
    if bytes.try_extend_from_slice(more).is_err() {
        unreachable!();
    }
}
