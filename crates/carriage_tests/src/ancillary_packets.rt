ghost use Rattle.std.specs.Prelude.{None};

use crate::distribution_packets::WITHOUT_CAPTIONS;
use anc_words::{CaptionPacket, WordPart, WordReader, write_packet};
use arrayvec::ArrayVec;
use cc_base::{Refusal, Resume, Upward, Why};

// A layer that takes all parts.
#[derive(Drop)]
struct All;

impl Upward<WordPart> for All {
    ghost Took = { λ handed seen. Unit {0} };

    ghost verdict = { λ handed part. None };

    fn part(&mut self, _part: WordPart) -> Result<(), Why> {
        Ok(())
    }
}

// The size of the packet at the front, the number of its user bytes, and these in front of bytes AA.
fn found(bytes: &[u8]) -> Option<(usize, usize, [u8; 255])> {
    let packet = CaptionPacket::at_front(bytes)?;
    let mut out = [0xAA; 255];
    let many = packet.user_bytes(&mut out);
    Some((packet.size(), many, out))
}

// The fewest and the most user words, which no distribution packet has: 161 + 101 + 200 is 062 modulo 200, and 161 + 101 + 256 * FF is 162.
#[test]
fn an_empty_packet_and_a_full_one_are_written_and_found(rt: HostRuntime) {
    let mut empty = ArrayVec::new();
    write_packet(0x61, 0x01, &[], &mut empty);
    let words: &[u8] = &[
        0x00, 0x00, 0x03, 0xFF, 0x03, 0xFF, 0x01, 0x61, 0x01, 0x01, 0x02, 0x00, 0x02, 0x62,
    ];
    assert!(rt; empty.as_slice() == words && found(&empty) == Some((14, 0, [0xAA; 255])));
    let mut full = ArrayVec::new();
    write_packet(0x61, 0x01, &[0xFF; 255], &mut full);
    assert!(rt;
        full.len() == 524
            && full.as_slice().ends_with(&[0x02, 0xFF, 0x01, 0x62])
            && found(&full) == Some((524, 255, [0xFF; 255]))
    );
}

#[test]
fn a_packet_with_a_flipped_bit_is_not_found(rt: HostRuntime) {
    let mut packet = ArrayVec::new();
    write_packet(0x61, 0x01, &WITHOUT_CAPTIONS, &mut packet);
    assert!(rt; packet.len() == 160 && CaptionPacket::at_front(&packet).is_some());
    for at in 0..160 {
        for bit in [1u8, 2, 4, 8, 16, 32, 64, 128] {
            if let Some(byte) = packet.get_mut(at) {
                *byte ^= bit;
            }
            assert!(rt;
                CaptionPacket::at_front(&packet).is_none(),
                "byte {at}, bit {bit}"
            );
            if let Some(byte) = packet.get_mut(at) {
                *byte ^= bit;
            }
        }
    }
    assert!(rt; CaptionPacket::at_front(&packet).is_some());
}

#[test]
fn what_stands_behind_the_user_bytes_stays(rt: HostRuntime) {
    let mut packet = ArrayVec::new();
    write_packet(0x61, 0x01, &WITHOUT_CAPTIONS, &mut packet);
    match CaptionPacket::at_front(&packet) {
        Some(whole) => {
            let mut out = [0xAA; 255];
            let many = whole.user_bytes(&mut out);
            assert!(rt;
                whole.size() == 160
                    && many == 73
                    && out.get(..73).unwrap_or(&[]) == WITHOUT_CAPTIONS.as_slice()
                    && out.get(73..).unwrap_or(&[]) == [0xAA; 182].as_slice()
            )
        }
        None => panic!(&rt; "no such packet"),
    }
}

#[test]
fn a_reader_goes_on_behind_a_packet_that_it_passed_over(rt: HostRuntime) {
    let mut packet = ArrayVec::new();
    write_packet(0x61, 0x01, &WITHOUT_CAPTIONS, &mut packet);
    let mut reader = WordReader::new();
    assert!(rt; size_of::<WordReader>() <= 96 && reader.is_closed());
    for _ in 0..2 {
        match CaptionPacket::at_front(&packet) {
            Some(whole) => reader.pass_over(&whole),
            None => panic!(&rt; "no packet"),
        }
    }
    assert!(rt; reader.is_closed());
    let answer = reader.feed(&[0x00, 0x00, 0x03], &mut All);
    assert!(rt; answer.is_ok() && !reader.is_closed());
    let want = Err(Refusal {
        place: 322,
        why: Why::Flag,
    });
    assert!(rt; reader.feed(&[0xFE], &mut All) == want);
    assert!(rt; !reader.is_closed() && reader.finish() == want);
}
