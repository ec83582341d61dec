ghost use Rattle.std.specs.Prelude.{◌≡◌, ◌≤◌, ◌%◌, ◌^◌, if◌then◌else◌, ℕ, List, None, Some, IfNone, IfSome, IsSome, length, map};
ghost use Rattle.std.specs.List.{flat_map, list_all, sum};
ghost use Rattle.anc_words.specs.CaptionWords.{AreRight, BeginsWithCaptions, low_of, word_of};
ghost use Rattle.anc_words.specs.Reading.{is_eight_bit};

use crate::word_lanes::{are_eight_bit, lanes};
use crate::words::{Word, value};
use std::simd::prelude::*;

/// The first five words of each packet of captions (SMPTE ST 291-1, SMPTE ST 334-1): the flag 000 3FF 3FF, DID 61, SDID 01.
const HEAD: [u8; 10] = [0x00, 0x00, 0x03, 0xFF, 0x03, 0xFF, 0x01, 0x61, 0x01, 0x01];

/// The sum of the words DID and SDID of captions.
const HEAD_SUM: u32 = 0x161 + 0x101;

/// The words that stand where a packet of captions has its count, user words and checksum word, before they are judged.
#[derive(Clone, Copy)]
pub(crate) struct CaptionWords<'a> {
    count: u16,
    pub(crate) user: &'a [[u8; 2]],
    checksum: u16,
}

impl<'a> CaptionWords<'a> {
    /// The words at the front of `bytes`. `None` where they don't begin with the flag and the identifiers of captions, or
    /// end before the checksum word.
    #[inline]
    pub(crate) fn at_front(bytes: &'a [u8]) -> Option<CaptionWords<'a>>
        ensures words { IfSome result
            (λ words. BeginsWithCaptions bytes.now words.count
            (map word_of words.user.now) words.checksum) }
        ensures bytes { IfSome result
            (λ words. map low_of words.user.now
            ≡ map (λ word. word % 256) (map word_of words.user.now)) }
        ensures few { IfSome result (λ words. length words.user.now ≤ 255) }
        ensures none { (count : ℕ) (user : List ℕ) (checksum : ℕ)
            → BeginsWithCaptions bytes.now count user checksum → IsSome result }
    {
        let (head, rest) = bytes.split_first_chunk::<10>()?;
        if *head != HEAD {
            return None;
        }
        let (words, _) = rest.as_chunks::<2>();
        let (count, words) = words.split_first()?;
        let count = value(*count);
        let (user, behind) = words.split_at_checked(usize::from(count % 256))?;
        let (checksum, _) = behind.split_first()?;
        Some(CaptionWords {
            count,
            user,
            checksum: value(*checksum),
        })
    }

    /// The sum of the user words, modulo 2^16, where all are 8-bit words, and the checksum word is the one of the others. `None`
    /// where they aren't.
    #[inline]
    pub(crate) fn right_sum(&self) -> Option<u16>
        ensures right { IfSome result
            (λ total. AreRight self.now.count (map word_of self.now.user.now) self.now.checksum) }
        ensures total { IfSome result
            (λ total. total ≡ sum (map word_of self.now.user.now) % 2 ^ 16) }
        ensures none { IfNone result
            (AreRight self.now.count (map word_of self.now.user.now) self.now.checksum → ⊥) }
    {
        let user = sum_of(self.user)?;
        let sum = HEAD_SUM + u32::from(self.count) + u32::from(user);
        if Word::is_eight_bit(self.count) && self.checksum == Word::checksum(sum).value {
            Some(user)
        } else {
            None
        }
    }
}

// The sum of words, modulo 2^16. `None` where one of them isn't an 8-bit word.
#[inline]
fn sum_of(words: &[[u8; 2]]) -> Option<u16>
    ensures { let all = map word_of words.now in result
        ≡ (if list_all is_eight_bit all then Some (sum all % 2 ^ 16) else None) }
{
    let (eights, rest) = words.as_chunks::<8>();
    Some(sum_of_eights(eights)?.wrapping_add(sum_of_rest(rest)?))
}

// The same of words in eights.
#[inline]
fn sum_of_eights(eights: &[[[u8; 2]; 8]]) -> Option<u16>
    ensures { let all = map word_of (flat_map (λ eight. eight) eights.now) in result
        ≡ (if list_all is_eight_bit all then Some (sum all % 2 ^ 16) else None) }
{
    let mut sums = u16x8::splat(0);
    for eight in eights {
        let words = lanes(eight);
        if !are_eight_bit(words) {
            return None;
        }
        sums += words;
    }
    Some(sums.reduce_sum())
}

// The same of words one by one.
#[inline]
fn sum_of_rest(words: &[[u8; 2]]) -> Option<u16>
    ensures { let all = map word_of words.now in result
        ≡ (if list_all is_eight_bit all then Some (sum all % 2 ^ 16) else None) }
{
    let mut total = 0u16;
    for word in words {
        let word = value(*word);
        if !Word::is_eight_bit(word) {
            return None;
        }
        total = total.wrapping_add(word);
    }
    Some(total)
}
