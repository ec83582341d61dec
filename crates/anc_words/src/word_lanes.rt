//! Words of ancillary data (SMPTE ST 291-1) eight at a time, a lane each.
ghost use Rattle.std.specs.Prelude.{◌≡◌, ◌%◌, ◌<◌, count_ones, map};
ghost use Rattle.std.specs.List.{All, flat_map, list_all};
ghost use Rattle.anc_words.specs.CaptionWords.{word_of};
ghost use Rattle.anc_words.specs.Reading.{is_eight_bit};
ghost use Rattle.anc_words.specs.Writing.{eight_bit_word, word_bytes};

use crate::words::value;
use std::simd::prelude::*;

/// The words of eight pairs of bytes, the high byte of each first.
#[inline]
pub(crate) fn lanes(words: &[[u8; 2]; 8]) -> u16x8
    ensures { result ≡ map word_of words.now }
{
    u16x8::from_array(words.map(value))
}

/// Whether all are 8-bit words: the bits above bit 7 are 1 where bits 7 to 0 have an odd number of ones, and else 2.
#[inline]
pub(crate) fn are_eight_bit(words: u16x8) -> bool
    ensures { result ≡ list_all is_eight_bit words }
{
    let high = words >> u16x8::splat(8);
    let odd = odd_ones(words & u16x8::splat(0xFF));
    high + odd == u16x8::splat(2)
}

/// The 8-bit words of eight bytes.
#[inline]
pub(crate) fn eight_bit_words(bytes: &[u8; 8]) -> u16x8
    ensures { result ≡ map eight_bit_word bytes.now }
{
    let bytes = u8x8::from_array(*bytes).cast::<u16>();
    let high = u16x8::splat(2) - odd_ones(bytes);
    bytes + (high << u16x8::splat(8))
}

/// The bytes of words, the high one of each first.
#[inline]
pub(crate) fn high_first(words: u16x8) -> [u8; 16]
    ensures { result ≡ flat_map word_bytes words }
{
    let swapped = (words >> u16x8::splat(8)) + (words << u16x8::splat(8));
    swapped.to_le_bytes().to_array()
}

// Which numbers of four bits have an odd number of ones: 1 for these, and 0 for the others.
const ODD: [u8; 16] = [0, 1, 1, 0, 1, 0, 0, 1, 1, 0, 0, 1, 0, 1, 1, 0];

// 1 in each lane whose byte has an odd number of ones, else 0. A byte has it where the XOR of its two halves has.
#[inline]
fn odd_ones(bytes: u16x8) -> u16x8
    requires { All (λ byte. byte < 256) bytes }
    ensures { result ≡ map (λ byte. count_ones byte % 2) bytes }
{
    let halves = (bytes ^ (bytes >> u16x8::splat(4))) & u16x8::splat(0xF);
    let odd = u8x16::from_array(ODD).swizzle_dyn(halves.to_le_bytes());
    u16x8::from_le_bytes(odd)
}
