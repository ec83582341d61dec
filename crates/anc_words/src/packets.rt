ghost use Rattle.std.specs.Prelude.{◌≡◌, ◌≤◌, ◌+◌, ◌*◌, ◌%◌, ◌^◌, ◌++◌, [], ◌∷◌, length, map};
ghost use Rattle.std.specs.List.{flat_map, sum};
ghost use Rattle.arrayvec.specs.ArrayVec.{array_vec_len};
ghost use Rattle.anc_words.specs.Packets.{user_bytes};
ghost use Rattle.anc_words.specs.WordsFiles.{IsPacketBytes};
ghost use Rattle.anc_words.specs.Writing.{eight_bit_word, word_bytes, packet_bytes, packet_of};

use crate::word_lanes::{eight_bit_words, high_first};
use crate::words::Word;
use arrayvec::ArrayVec;
use std::simd::prelude::*;

/// The DID of ancillary packets of closed captions (SMPTE ST 334-1).
pub const CAPTION_DID: u8 = 0x61;

/// The SDID of ancillary packets of closed captions (SMPTE ST 334-1).
pub const CAPTION_SDID: u8 = 0x01;

// The bytes of the longest packet: 255 user words and seven others, two bytes each.
const ROOM: usize = 524;

/// Writes the ancillary packet with these identifiers and user bytes into `out` (SMPTE ST 291-1). It is the flag 000
/// 3FF 3FF, DID, SDID, the count of the user words, the user words and the checksum word, each as two bytes, the high
/// one first. Every user byte is an 8-bit word there, whatever the identifiers are; closed captions' are 0x61 and
/// 0x01 (SMPTE ST 334-1). There are at most 255 user bytes, and `out` is empty before.
#[inline(always)]
pub fn write_packet(did: u8, sdid: u8, user: &[u8], out: &mut ArrayVec<u8, 524>)
    requires few { length user.now ≤ 255 }
    requires empty { out.old.items ≡ [] }
    ensures bytes { out.new.items ≡ packet_bytes did sdid user.now }
    ensures packet { IsPacketBytes (packet_of did sdid user.now) out.new.items }
    ensures carried { user_bytes (packet_of did sdid user.now) ≡ user.now }
{
    let head = put_head(did, sdid, user.len() as u8, out);
    let sum = u32::from(head) + u32::from(put_user(user, out));
    put_word(Word::checksum(sum), out);
}

// Appends the words before the user words: the flag, DID, SDID and the count. Gives the sum of the last three, which the
// checksum goes over.
#[inline]
fn put_head(did: u8, sdid: u8, count: u8, out: &mut ArrayVec<u8, ROOM>) -> u16
    requires { array_vec_len out.old + 12 ≤ ROOM }
    ensures items { out.new.items ≡ out.old.items ++ flat_map word_bytes
        (0x000 ∷ 0x3FF ∷ 0x3FF ∷ map eight_bit_word (did ∷ sdid ∷ count ∷ [])) }
    ensures len { array_vec_len out.new ≡ array_vec_len out.old + 12 }
    ensures sum { result ≡ sum (map eight_bit_word (did ∷ sdid ∷ count ∷ [])) }
{
    let [zeros, ones, more_ones] = Word::FLAG;
    let did = Word::eight_bit(did);
    let sdid = Word::eight_bit(sdid);
    let count = Word::eight_bit(count);
    let words = [
        zeros.bytes(),
        ones.bytes(),
        more_ones.bytes(),
        did.bytes(),
        sdid.bytes(),
        count.bytes(),
    ];
    put_bytes(words.as_flattened(), out);
    did.value + sdid.value + count.value
}

// Appends the 8-bit words of bytes, and gives the sum of these words, modulo 2^16.
#[inline]
fn put_user(user: &[u8], out: &mut ArrayVec<u8, ROOM>) -> u16
    requires { array_vec_len out.old + 2 * length user.now ≤ ROOM }
    ensures items { out.new.items
        ≡ out.old.items ++ flat_map word_bytes (map eight_bit_word user.now) }
    ensures len { array_vec_len out.new ≡ array_vec_len out.old + 2 * length user.now }
    ensures sum { result ≡ sum (map eight_bit_word user.now) % 2 ^ 16 }
{
    let (eights, rest) = user.as_chunks::<8>();
    let sum = put_eights(eights, out);
    sum.wrapping_add(put_rest(rest, out))
}

// The same of bytes in eights.
#[inline]
fn put_eights(eights: &[[u8; 8]], out: &mut ArrayVec<u8, ROOM>) -> u16
    requires { array_vec_len out.old + 16 * length eights.now ≤ ROOM }
    ensures items { out.new.items ≡ out.old.items
        ++ flat_map word_bytes (map eight_bit_word (flat_map (λ eight. eight) eights.now)) }
    ensures len { array_vec_len out.new ≡ array_vec_len out.old + 16 * length eights.now }
    ensures sum { result
        ≡ sum (map eight_bit_word (flat_map (λ eight. eight) eights.now)) % 2 ^ 16 }
{
    let mut sums = u16x8::splat(0);
    for eight in eights {
        let words = eight_bit_words(eight);
        put_bytes(&high_first(words), out);
        sums += words;
    }
    sums.reduce_sum()
}

// The same of bytes one by one.
#[inline]
fn put_rest(bytes: &[u8], out: &mut ArrayVec<u8, ROOM>) -> u16
    requires { array_vec_len out.old + 2 * length bytes.now ≤ ROOM }
    ensures items { out.new.items
        ≡ out.old.items ++ flat_map word_bytes (map eight_bit_word bytes.now) }
    ensures len { array_vec_len out.new ≡ array_vec_len out.old + 2 * length bytes.now }
    ensures sum { result ≡ sum (map eight_bit_word bytes.now) % 2 ^ 16 }
{
    let mut sum = 0u16;
    for byte in bytes {
        let word = Word::eight_bit(*byte);
        put_word(word, out);
        sum = sum.wrapping_add(word.value);
    }
    sum
}

// Appends a word.
#[inline]
fn put_word(word: Word, out: &mut ArrayVec<u8, ROOM>)
    requires { array_vec_len out.old + 2 ≤ ROOM }
    ensures items { out.new.items ≡ out.old.items ++ word_bytes word.value }
    ensures len { array_vec_len out.new ≡ array_vec_len out.old + 2 }
{
    let [high, low] = word.bytes();
    out.push(high);
    out.push(low);
}

// Appends bytes.
#[inline]
fn put_bytes(bytes: &[u8], out: &mut ArrayVec<u8, ROOM>)
    requires { array_vec_len out.old + length bytes.now ≤ ROOM }
    ensures items { out.new.items ≡ out.old.items ++ bytes.now }
    ensures len { array_vec_len out.new ≡ array_vec_len out.old + length bytes.now }
{
    if out.try_extend_from_slice(bytes).is_err() {
        unreachable!();
    }
}
