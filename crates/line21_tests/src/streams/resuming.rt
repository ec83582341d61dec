ghost use Rattle.std.specs.Prelude.{◌≡◌, ℕ, ◌+◌, ◌-◌, ◌*◌, ◌%◌, ◌^◌, ◌<◌, ◌==◌, ◌||◌, nat_lt, if◌then◌else◌, Option, Some, None, length};
ghost use Rattle.cc_base.specs.declared.step.Step.TheVariants.{Nothing, One, Two, Refuse};
ghost use Rattle.cc_base.specs.declared.why.Why.TheVariants as why;

use cc_base::laws::{law_of_pieces, refusals_are_of_the_first_refused_item};
use cc_base::{Fed, Machine, Refusal, Resume, Step, Upward, Why, feed_pieces};

// Decimal numbers modulo 2^16, each ended by a comma, or by a semicolon, which makes another part 65535 after it. Two bytes
// have one place.
#[derive(Clone, Copy)]
struct Numbers {
    number: u16,
}

impl Machine<u8, u16> for Numbers {
    ghost use Rattle.std.proofs.Common.{rules};

    ghost Given = { Unit {0} };

    ghost Front = { ℕ };

    ghost syntax = { λ given. record {
      start = 0;
      judge = λ number item. if item == 44 then One number
          else if item == 59 then Two number 65535
          else if nat_lt item 48 || nat_lt 57 item then Refuse why.Field
          else Nothing;
      after = λ number item. if item == 44 || item == 59 then 0 else (number * 10 % 65536 + (item - 48)) % 65536;
    } };

    ghost Matches = { λ given number machine. machine.number ≡ number };

    ghost UNIT = { 2 };

    const UNIT: u64 = 2;

    fn step(&mut self, item: u8) -> Step<u16> {
        let number = self.number;
        if item == b',' {
            self.number = 0;
            return Step::One(number);
        }
        if item == b';' {
            self.number = 0;
            return Step::Two(number, 65535);
        }
        if item < b'0' || b'9' < item {
            return Step::Refuse(Why::Field);
        }
        self.number = number.wrapping_mul(10).wrapping_add(u16::from(item - b'0'));
        Step::Nothing
    }

    ghost unit_is_positive = { Prim.search rules };

    ghost item_fits = { Prim.search rules };
}

// Counts parts, and keeps them as digits in groups of five; it refuses 13.
#[derive(Clone, Copy)]
struct Tally {
    count: u64,
    digits: u64,
}

impl Upward<u16> for Tally {
    ghost Took = { λ parts tally. tally.count ≡ length parts % 2 ^ 64 };

    ghost verdict = { λ before part. if part == 13 then Some why.Clash else None };

    fn part(&mut self, part: u16) -> Result<(), Why> {
        self.count = self.count.wrapping_add(1);
        self.digits = self
            .digits
            .wrapping_mul(100_000)
            .wrapping_add(u64::from(part));
        if part == 13 {
            return Err(Why::Clash);
        }
        Ok(())
    }
}

// Feeds the bytes in pieces of this size to a reader and its tally.
fn feed_in_pieces(bytes: &[u8], size: usize) -> (Result<(), Refusal>, Tally)
    requires { 0 < size }
{
    let mut reader = Fed::new(Numbers { number: 0 });
    let mut tally = Tally {
        count: 0,
        digits: 0,
    };
    let mut answer = Ok(());
    for piece in bytes.chunks(size) {
        answer = reader.feed(piece, &mut tally);
    }
    (answer, tally)
}

// What is fed, the refusal, and the tally's count and digits.
const TEXTS: [(&[u8], Option<(u64, Why)>, u64, u64); 5] = [
    (b"1,22,333,4", None, 3, 10_002_200_333),
    (b"1,2x3,4,", Some((2, Why::Field)), 1, 1),
    (b"1,13,4,", Some((4, Why::Clash)), 2, 100_013),
    (b"7;8,", None, 3, 76_553_500_008),
    (b"13;8,", Some((2, Why::Clash)), 1, 13),
];

#[test]
fn any_pieces_are_read_alike_up_to_a_refused_item_or_part(rt: HostRuntime) {
    for (text, refusal, count, digits) in TEXTS {
        let due = match refusal {
            Some((place, why)) => Err(Refusal { place, why }),
            None => Ok(()),
        };
        for size in [1, 2, 3, 5, 100] {
            let (answer, tally) = feed_in_pieces(text, size);
            assert!(rt; answer == due && tally.count == count && tally.digits == digits);
        }
    }
}

#[test]
fn two_pieces_are_one(rt: HostRuntime) {
    law_of_pieces::<u8, u16>();
    refusals_are_of_the_first_refused_item::<u8, u16>();
    let mut reader = Fed::new(Numbers { number: 0 });
    let mut tally = Tally {
        count: 0,
        digits: 0,
    };
    let refusal = Refusal {
        place: 6,
        why: Why::Field,
    };
    assert!(rt; feed_pieces(&mut reader, b"1,2", b"2,3,", &mut tally).is_ok());
    assert!(rt; tally.count == 3 && tally.digits == 10_002_200_003);
    assert!(rt; feed_pieces(&mut reader, b" ", b"4,", &mut tally) == Err(refusal));
    assert!(rt; tally.count == 3 && tally.digits == 10_002_200_003);
}

#[test]
fn items_are_read_one_by_one(rt: HostRuntime) {
    let mut reader = Fed::new(Numbers { number: 0 });
    assert!(rt;
        reader.step(b'4') == Step::Nothing
            && reader.step(b',') == Step::One(4)
            && reader.step(b';') == Step::Two(0, 65535)
    );
    let refusal = Refusal {
        place: 2,
        why: Why::Field,
    };
    for item in [b'x', b','] {
        assert!(rt;
            reader.step(item) == Step::Refuse(Why::Field) && reader.refusal == Some(refusal)
        );
    }
}
