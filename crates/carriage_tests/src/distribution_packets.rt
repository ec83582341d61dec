ghost use Rattle.std.specs.Prelude.{◌≡◌, ℕ, ◌<◌, ◌==◌, if◌then◌else◌, Some, None};
ghost use Rattle.cc_base.specs.declared.why.Why.TheVariants as why;
ghost use Rattle.cdp_packets.specs.declared.parts.CdpPart.TheVariants as parts;

use arrayvec::ArrayVec;
use cc_base::{Rate, Refusal, Resume, Upward, Why};
use cc_data::Triplet;
use cdp_packets::{CdpPart, CdpReader, cc_section};
use std::alloc::{AllocError, Global};
use std::mem::size_of;
use std::test::Fail;

// The packet of a frame without captions at 29.97 frames a second: the null pairs of both fields, and
// eighteen triplets that don't count.
pub(crate) const WITHOUT_CAPTIONS: [u8; 73] = [
    0x96, 0x69, 0x49, 0x4F, 0x43, 0x00, 0x00, 0x72, 0xF4, 0xFC, 0x80, 0x80, 0xFD, 0x80, 0x80, 0xFA,
    0x00, 0x00, 0xFA, 0x00, 0x00, 0xFA, 0x00, 0x00, 0xFA, 0x00, 0x00, 0xFA, 0x00, 0x00, 0xFA, 0x00,
    0x00, 0xFA, 0x00, 0x00, 0xFA, 0x00, 0x00, 0xFA, 0x00, 0x00, 0xFA, 0x00, 0x00, 0xFA, 0x00, 0x00,
    0xFA, 0x00, 0x00, 0xFA, 0x00, 0x00, 0xFA, 0x00, 0x00, 0xFA, 0x00, 0x00, 0xFA, 0x00, 0x00, 0xFA,
    0x00, 0x00, 0xFA, 0x00, 0x00, 0x74, 0x00, 0x00, 0xBF,
];

// A packet at 25 frames a second with the flags E7 and the counter 1234, and a section of each kind. These are a time code, the
// information of one service, one triplet of cc_data, three bytes after the first id kept for the future, and none after the last.
const EVERY_KIND: [u8; 37] = [
    0x96, 0x69, 0x25, 0x3F, 0xE7, 0x12, 0x34, 0x71, 0xC1, 0x82, 0x93, 0x44, 0x73, 0xF1, 0xC1, 0x01,
    0x65, 0x6E, 0x67, 0x81, 0xFF, 0x72, 0xE1, 0xFC, 0x94, 0x20, 0x75, 0x03, 0x01, 0x02, 0x03, 0xEF,
    0x00, 0x74, 0x12, 0x34, 0xDB,
];

fn triplet(valid: bool, kind: u8, a: u8, b: u8) -> Triplet
    ensures { result.kind ≡ kind }
{
    Triplet { valid, kind, a, b }
}

#[test]
fn a_second_section_stands_behind_the_first(rt: HostRuntime) {
    let mut sections = ArrayVec::new();
    cc_section(&[], &mut sections);
    cc_section(&[triplet(true, 3, 0x0A, 0x32)], &mut sections);
    assert!(rt; sections.as_slice() == [0x72, 0xE0, 0x72, 0xE1, 0xFF, 0x0A, 0x32].as_slice());
}

// The parts that were handed upward. It refuses the flags 2A.
#[derive(Drop)]
struct Seen {
    parts: Vec<CdpPart>,
}

impl Upward<CdpPart> for Seen {
    ghost Took = { λ handed seen. Unit {0} };

    ghost verdict = { λ handed part. elim part [
      | parts.Flags flags ↦ if flags == 42 then Some why.Header else None
      | _ ↦ None
    ] };

    fn part(&mut self, part: CdpPart) -> Result<(), Why> {
        let _ = self.parts.push(part);
        if let CdpPart::Flags(flags) = part {
            if flags == 0x2A {
                return Err(Why::Header);
            }
        }
        Ok(())
    }
}

fn refusal(place: u64, why: Why) -> Result<(), Refusal> {
    Err(Refusal { place, why })
}

// What a new reader answers to the bytes in pieces of this size, and what was handed upward.
fn read(
    alloc: Global,
    length: u8,
    bytes: &[u8],
    size: usize,
) -> Result<(Result<(), Refusal>, Seen), Why>
    requires { 0 < size }
{
    let mut reader = CdpReader::new(length)?;
    let mut seen = Seen {
        parts: Vec::new(alloc),
    };
    let mut answer = Ok(());
    for piece in bytes.chunks(size) {
        answer = reader.feed(piece, &mut seen);
    }
    Ok((answer, seen))
}

// The parts of a triplet's bytes, of which these are the last two and the first one as it is written.
fn push_triplet(parts: &mut Vec<CdpPart>, first: u8, whole: Triplet) -> Result<(), AllocError> {
    let half = Triplet { b: 0, ..whole };
    parts.push(CdpPart::SectionByte(first))?;
    parts.push(CdpPart::SectionByte(whole.a))?;
    parts.push(CdpPart::Half(half))?;
    parts.push(CdpPart::SectionByte(whole.b))?;
    parts.push(CdpPart::Triplet(whole))?;
    Ok(())
}

// The parts of the packet of the first frame without captions.
fn parts_without_captions(alloc: Global) -> Result<Vec<CdpPart>, AllocError> {
    let mut parts = Vec::new(alloc);
    parts.push(CdpPart::Rate(Rate::F2997))?;
    parts.push(CdpPart::Flags(0x43))?;
    parts.push(CdpPart::Counter(0))?;
    parts.push(CdpPart::SectionByte(0x72))?;
    parts.push(CdpPart::SectionByte(0xF4))?;
    push_triplet(&mut parts, 0xFC, triplet(true, 0, 0x80, 0x80))?;
    push_triplet(&mut parts, 0xFD, triplet(true, 1, 0x80, 0x80))?;
    for _ in 0..18 {
        push_triplet(&mut parts, 0xFA, triplet(false, 2, 0, 0))?;
    }
    parts.push(CdpPart::End)?;
    Ok(parts)
}

#[test]
fn a_packet_is_read_in_any_pieces(rt: HostRuntime) -> Result<(), Fail> {
    let expected = parts_without_captions(rt.alloc())?;
    for size in [1, 2, 159, 73] {
        let (answer, seen) = read(rt.alloc(), 73, &WITHOUT_CAPTIONS, size)?;
        assert!(rt;
            answer.is_ok() && seen.parts.as_slice() == expected.as_slice(),
            "size {size}"
        );
    }
    Ok(())
}

#[test]
fn sections_of_every_kind_are_read(rt: HostRuntime) -> Result<(), Fail> {
    let mut expected = Vec::new(rt.alloc());
    expected.push(CdpPart::Rate(Rate::F25))?;
    expected.push(CdpPart::Flags(0xE7))?;
    expected.push(CdpPart::Counter(0x1234))?;
    for byte in &EVERY_KIND[7..23] {
        expected.push(CdpPart::SectionByte(*byte))?;
    }
    push_triplet(&mut expected, 0xFC, triplet(true, 0, 0x94, 0x20))?;
    for byte in &EVERY_KIND[26..33] {
        expected.push(CdpPart::SectionByte(*byte))?;
    }
    expected.push(CdpPart::End)?;
    for size in [1, 2, 159] {
        let (answer, seen) = read(rt.alloc(), 37, &EVERY_KIND, size)?;
        assert!(rt;
            answer.is_ok() && seen.parts.as_slice() == expected.as_slice(),
            "size {size}"
        );
    }
    Ok(())
}

#[test]
fn what_the_layer_above_refuses_is_refused_at_its_byte(rt: HostRuntime) -> Result<(), Fail> {
    let mut packet = WITHOUT_CAPTIONS;
    packet[4] = 0x2A;
    for size in [1, 2, 159] {
        let (answer, _seen) = read(rt.alloc(), 73, &packet, size)?;
        assert!(rt; answer == refusal(4, Why::Header), "size {size}");
    }
    Ok(())
}

#[test]
fn bytes_behind_the_end_change_nothing(rt: HostRuntime) -> Result<(), Fail> {
    let mut reader = CdpReader::new(73)?;
    let mut seen = Seen {
        parts: Vec::new(rt.alloc()),
    };
    assert!(rt; reader.feed(&WITHOUT_CAPTIONS, &mut seen).is_ok());
    let count = seen.parts.len();
    for _ in 0..300 {
        assert!(rt; reader.feed(&[0x96, 0x00], &mut seen).is_ok());
    }
    assert!(rt; seen.parts.len() == count);
    Ok(())
}

#[test]
fn a_refusal_stays(rt: HostRuntime) -> Result<(), Fail> {
    let mut reader = CdpReader::new(73)?;
    let mut seen = Seen {
        parts: Vec::new(rt.alloc()),
    };
    let mut front = WITHOUT_CAPTIONS;
    front[5] = 0x80;
    assert!(rt; reader.feed(&front, &mut seen) == refusal(70, Why::Counter));
    let count = seen.parts.len();
    assert!(rt; reader.feed(&[0x80, 0x00, 0xBF], &mut seen) == refusal(70, Why::Counter));
    assert!(rt; reader.feed(&WITHOUT_CAPTIONS, &mut seen) == refusal(70, Why::Counter));
    assert!(rt; seen.parts.len() == count);
    Ok(())
}

#[test]
fn a_reader_is_small_and_copied(rt: HostRuntime) -> Result<(), Fail> {
    assert!(rt; size_of::<CdpReader>() <= 96);
    let mut seen = Seen {
        parts: Vec::new(rt.alloc()),
    };
    let mut reader = CdpReader::new(73)?;
    assert!(rt; reader.feed(&WITHOUT_CAPTIONS[..10], &mut seen).is_ok());
    let mut trial = reader;
    assert!(rt; trial.feed(&[0x94, 0x20, 0xFC, 0x41], &mut seen).is_ok());
    let count = seen.parts.len();
    assert!(rt; reader.feed(&WITHOUT_CAPTIONS[10..], &mut seen).is_ok());
    assert!(rt; seen.parts.len() == count + 4 + 19 * 5 + 1);
    Ok(())
}
