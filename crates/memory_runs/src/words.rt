//! Packets of captions that are made by hand, as the bytes of their words.

ghost use Rattle.std.specs.Prelude.{◌≡◌, ◌%◌, ◌<◌, ◌≤◌, [], IfOk, length, map};
ghost use Rattle.std.specs.List.{flat_map, sum};
ghost use Rattle.anc_words.specs.Writing.{checksum_word, eight_bit_word, packet_bytes, packet_words, summed_words, word_bytes};
ghost use Rattle.memory_runs.specs.Words.{IsCaptionFrame, IsLast};

use std::alloc::{AllocError, Global};

/// Words as bytes, the high byte first.
pub fn bytes_of(alloc: Global, words: &[u16]) -> Result<Vec<u8>, AllocError>
    ensures { IfOk result (λ bytes. bytes.items ≡ flat_map word_bytes words.now) }
{
    let mut bytes = Vec::new(alloc);
    for word in words {
        bytes.extend_from_slice(&word.to_be_bytes())?;
    }
    Ok(bytes)
}

/// The word of a byte: bit 8 is even parity of bits 7 to 0, and bit 9 its inverse (SMPTE ST 291-1).
fn word_of(byte: u8) -> u16
    ensures { result ≡ eight_bit_word byte }
{
    if byte.count_ones() % 2 == 1 {
        0x100 + u16::from(byte)
    } else {
        0x200 + u16::from(byte)
    }
}

/// The checksum word of words.
fn checksum_of(words: &[u16]) -> u16
    ensures { result ≡ checksum_word words.now }
{
    let mut total = 0u16;
    for word in words {
        total = (total + *word % 0x200) % 0x200;
    }
    if total < 0x100 { 0x200 + total } else { total }
}

/// The sum of bytes, modulo 256.
fn sum_of(bytes: &[u8]) -> u8
    ensures { result ≡ sum bytes.now % 256 }
{
    let mut total = 0u8;
    for byte in bytes {
        total = total.wrapping_add(*byte);
    }
    total
}

/// The words of bytes.
fn words_of(alloc: Global, bytes: &[u8]) -> Result<Vec<u16>, AllocError>
    ensures { IfOk result (λ words. words.items ≡ map eight_bit_word bytes.now) }
{
    let mut words = Vec::new(alloc);
    for byte in bytes {
        words.push(word_of(*byte))?;
    }
    Ok(words)
}

/// The words that the checksum of a packet of captions goes over, from DID to the last user word.
fn summed_words(alloc: Global, user: &[u8]) -> Result<Vec<u16>, AllocError>
    requires { length user.now < 256 }
    ensures { IfOk result (λ words. words.items ≡ summed_words 0x61 0x01 user.now) }
{
    let mut words = words_of(alloc, &[0x61, 0x01, user.len() as u8])?;
    words.extend_from_slice(&words_of(alloc, user)?)?;
    Ok(words)
}

/// The words of a packet of captions.
fn packet_words(alloc: Global, user: &[u8]) -> Result<Vec<u16>, AllocError>
    requires { length user.now < 256 }
    ensures { IfOk result (λ words. words.items ≡ packet_words 0x61 0x01 user.now) }
{
    let summed = summed_words(alloc, user)?;
    let mut words = [0x0000, 0x03FF, 0x03FF].to_vec(alloc)?;
    words.extend_from_slice(&summed)?;
    words.push(checksum_of(&summed))?;
    Ok(words)
}

/// The bytes of a packet of captions.
fn packet_of(alloc: Global, user: &[u8]) -> Result<Vec<u8>, AllocError>
    requires { length user.now < 256 }
    ensures { IfOk result (λ bytes. bytes.items ≡ packet_bytes 0x61 0x01 user.now) }
{
    bytes_of(alloc, &packet_words(alloc, user)?)
}

/// The last byte of a distribution packet.
fn last_of(packet: &[u8]) -> u8
    ensures { IsLast packet.now result }
{
    0u8.wrapping_sub(sum_of(packet))
}

/// The packet of captions that carries a distribution packet, which is given without its last byte. Nothing comes of more than 254
/// bytes, which no such packet has.
pub fn frame_of(alloc: Global, packet: &[u8]) -> Result<Vec<u8>, AllocError>
    ensures frame { IfOk result (λ bytes.
        length packet.now < 255 → IsCaptionFrame packet.now bytes.items) }
    ensures none { IfOk result (λ bytes. 255 ≤ length packet.now → bytes.items ≡ []) }
{
    if packet.len() > 254 {
        return Ok(Vec::new(alloc));
    }
    let last = last_of(packet);
    let mut user = packet.to_vec(alloc)?;
    user.push(last)?;
    packet_of(alloc, &user)
}
