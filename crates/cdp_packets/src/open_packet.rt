ghost use Rattle.std.specs.Prelude.{◌≡◌, ◌==◌, nat_lt, if◌then◌else◌, true, ℕ};
ghost use Rattle.cc_base.specs.declared.step.Step.TheVariants.{Nothing, Refuse};
ghost use Rattle.cc_base.specs.Steps.{IsTaken};
ghost use Rattle.cdp_packets.specs.declared.open_packet.Footer.TheVariants as footer;
ghost use Rattle.cdp_packets.specs.declared.open_packet.Place.TheVariants as place;
ghost use Rattle.cdp_packets.specs.Reading.{IsPacketLength, Open, cdp_syntax, judge_cdp, nothing_open, open_after};

use crate::packets::FOOTER;
use crate::parts::CdpPart;
use crate::within::{Within, read_section_byte};
use cc_base::{Machine, Rate, Step, Why};

/// The byte of a packet that comes next.
#[derive(Clone, Copy, PartialEq, Eq)]
pub(crate) enum Place {
    /// One of the seven bytes before the sections.
    Head(Head),
    /// One of a section.
    Sections(Within),
    /// One of the four bytes after the sections.
    Footer(Footer),
    /// None: the packet has ended.
    Done,
}

/// A byte before the sections.
#[derive(Clone, Copy, PartialEq, Eq)]
pub(crate) enum Head {
    /// The first byte of the identifier.
    First,
    /// The second byte of the identifier.
    Second,
    /// The length of the whole packet.
    Length,
    /// The frame rate.
    Rate,
    /// The flags.
    Flags,
    /// The counter's high byte.
    High,
    /// The counter's low byte.
    Low,
}

/// A byte of the footer.
#[derive(Clone, Copy, PartialEq, Eq)]
pub(crate) enum Footer {
    /// The footer's id.
    Id,
    /// The counter's high byte.
    High,
    /// The counter's low byte.
    Low,
    /// The byte that makes the sum 0.
    Sum,
}

/// What is kept of a packet while it is read: none of the bytes of its sections, only which byte comes next, how many are
/// left, the counter, and the sum so far.
#[derive(Clone, Copy)]
pub(crate) struct OpenPacket {
    /// The length of the whole packet.
    pub(crate) length: u8,
    /// The byte that comes next.
    pub(crate) next: Place,
    /// The number of bytes that are left, down to the last one.
    pub(crate) left: u8,
    /// The counter's high byte, once it has come.
    pub(crate) high: u8,
    /// The counter's low byte, once it has come.
    pub(crate) low: u8,
    /// The sum of the bytes so far, modulo 256.
    pub(crate) total: u8,
}

// What comes next after a byte where this many bytes of the sections are left: this one of them, or the footer.
fn sections_or_footer(left: u8, within: Within) -> Place
    ensures { result ≡ (if nat_lt 0 left then place.Sections within else place.Footer footer.Id) }
{
    if left > 0 {
        Place::Sections(within)
    } else {
        Place::Footer(Footer::Id)
    }
}

impl OpenPacket {
    ghost use Rattle.cdp_packets.specs.Readers.{GoesOn, Keeps};

    /// No byte of a packet of this length has come.
    pub(crate) fn new(length: u8) -> OpenPacket
        requires { IsPacketLength length }
        ensures { Keeps length nothing_open result }
    {
        OpenPacket {
            length,
            next: Place::Head(Head::First),
            left: length,
            high: 0,
            low: 0,
            total: 0,
        }
    }

    // Goes on after a byte.
    fn go_on(&mut self, item: u8, next: Place, step: Step<CdpPart>) -> Step<CdpPart>
        ensures says { result ≡ step }
        ensures behind { GoesOn self.old item next self.new }
    {
        self.next = next;
        self.left = self.left.saturating_sub(1);
        self.total = self.total.wrapping_add(item);
        step
    }

    // Judges a byte that has to be this one, and goes on after it.
    fn fixed(&mut self, item: u8, expected: u8, why: Why, next: Place) -> Step<CdpPart>
        ensures says { result ≡ (if item == expected then Nothing else Refuse why) }
        ensures behind { GoesOn self.old item next self.new }
    {
        let step = match item == expected {
            true => Step::Nothing,
            false => Step::Refuse(why),
        };
        self.go_on(item, next, step)
    }

    // Judges a byte before the sections, and goes on after it where it isn't refused.
    fn head(&mut self, head: Head, item: u8) -> Step<CdpPart>
        ensures says { (size : ℕ) (front : Open) → Keeps size front self.old
            → self.old.next ≡ place.Head head
            → result ≡ judge_cdp size front item }
        ensures leads { (size : ℕ) (front : Open) → Keeps size front self.old
            → self.old.next ≡ place.Head head → IsTaken result
            → Keeps size (open_after size front item) self.new }
    {
        match head {
            Head::First => self.fixed(item, 0x96, Why::Identifier, Place::Head(Head::Second)),
            Head::Second => self.fixed(item, 0x69, Why::Identifier, Place::Head(Head::Length)),
            Head::Length => self.fixed(item, self.length, Why::Length, Place::Head(Head::Rate)),
            Head::Rate => match Rate::from_code(item / 16) {
                Some(rate) => {
                    let part = Step::One(CdpPart::Rate(rate));
                    self.go_on(item, Place::Head(Head::Flags), part)
                }
                None => Step::Refuse(Why::Rate),
            },
            Head::Flags => {
                let part = Step::One(CdpPart::Flags(item));
                self.go_on(item, Place::Head(Head::High), part)
            }
            Head::High => {
                self.high = item;
                self.go_on(item, Place::Head(Head::Low), Step::Nothing)
            }
            Head::Low => {
                self.low = item;
                let counter = u16::from(self.high) * 256 + u16::from(item);
                let next = sections_or_footer(self.left.saturating_sub(5), Within::Id);
                self.go_on(item, next, Step::One(CdpPart::Counter(counter)))
            }
        }
    }

    // Judges a byte of the sections, and goes on after it where it isn't refused.
    fn section(&mut self, within: Within, item: u8) -> Step<CdpPart>
        ensures says { (size : ℕ) (front : Open) → Keeps size front self.old
            → self.old.next ≡ place.Sections within
            → result ≡ judge_cdp size front item }
        ensures leads { (size : ℕ) (front : Open) → Keeps size front self.old
            → self.old.next ≡ place.Sections within → IsTaken result
            → Keeps size (open_after size front item) self.new }
    {
        let (step, within) = read_section_byte(within, self.left.saturating_sub(4), item);
        let next = sections_or_footer(self.left.saturating_sub(5), within);
        self.go_on(item, next, step)
    }

    // Judges a byte of the footer, and goes on after it where it isn't refused.
    fn footer(&mut self, footer: Footer, item: u8) -> Step<CdpPart>
        ensures says { (size : ℕ) (front : Open) → Keeps size front self.old
            → self.old.next ≡ place.Footer footer
            → result ≡ judge_cdp size front item }
        ensures leads { (size : ℕ) (front : Open) → Keeps size front self.old
            → self.old.next ≡ place.Footer footer → IsTaken result
            → Keeps size (open_after size front item) self.new }
    {
        match footer {
            Footer::Id => self.fixed(item, FOOTER, Why::Section, Place::Footer(Footer::High)),
            Footer::High => self.fixed(item, self.high, Why::Counter, Place::Footer(Footer::Low)),
            Footer::Low => self.fixed(item, self.low, Why::Counter, Place::Footer(Footer::Sum)),
            Footer::Sum => {
                if self.total.wrapping_add(item) != 0 {
                    return Step::Refuse(Why::Sum);
                }
                self.go_on(item, Place::Done, Step::One(CdpPart::End))
            }
        }
    }
}

impl Machine<u8, CdpPart> for OpenPacket {
    ghost use Rattle.std.proofs.Common.{rules};
    ghost use Rattle.cdp_packets.specs.Readers.{Keeps};

    ghost Given = { ℕ };

    ghost Front = { Open };

    ghost syntax = { cdp_syntax };

    ghost Matches = { λ size front packet. Keeps size front packet };

    ghost UNIT = { 1 };

    const UNIT: u64 = 1;

    fn step(&mut self, item: u8) -> Step<CdpPart> {
        match self.next {
            Place::Head(head) => self.head(head, item),
            Place::Sections(within) => self.section(within, item),
            Place::Footer(footer) => self.footer(footer, item),
            Place::Done => Step::Nothing,
        }
    }

    ghost unit_is_positive = { Prim.search rules };

    ghost item_fits = { Prim.search rules };
}
