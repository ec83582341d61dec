ghost use Rattle.std.specs.Prelude.{◌≡◌, ℕ, ◌==◌, if◌then◌else◌, List, []};
ghost use Rattle.cc_base.specs.Steps.{IsTaken};
ghost use Rattle.service_blocks.specs.declared.open_block.Next.TheVariants as next;
ghost use Rattle.service_blocks.specs.BlockParts.{extended_service, standard_service};
ghost use Rattle.service_blocks.specs.Reading.{Open, block_after, block_syntax, is_next, judge_byte, judge_service, nothing_open};

use crate::parts::BlockPart;
use cc_base::{Machine, Step, Why};
use channel_packets::PacketPart;

/// The byte of a channel packet that comes next.
#[derive(Clone, Copy, PartialEq, Eq)]
pub(crate) enum Next {
    /// The header of a block.
    Header,
    /// The second header byte of a block that has this many bytes after it.
    Second { size: u8 },
    /// A byte of a block: one of this many that are left of it, for this service, or read past.
    Body { service: Option<u8>, left: u8 },
    /// One after a header 00.
    Ignored,
}

/// What is kept of a service block while it is read: none of its bytes, only which byte comes next.
#[derive(Clone, Copy)]
pub(crate) struct OpenBlock {
    /// The number of bytes that the packet has left, by the last part that was taken, if there was one.
    pub(crate) left: Option<u8>,
    /// The byte that comes next.
    pub(crate) next: Next,
}

// The number of a header that a second header byte follows.
pub(crate) const EXTENDED: u8 = 7;

// The service of a header's number.
fn standard(number: u8) -> Option<u8>
    ensures { result ≡ standard_service number }
{
    match number {
        0 => None,
        _ => Some(number),
    }
}

// The service of a second header byte.
fn extended(second: u8) -> Option<u8>
    ensures { result ≡ extended_service second }
{
    match second % 64 {
        0..EXTENDED => None,
        number => Some(number),
    }
}

// What comes next where this many bytes of a block are left.
fn body(service: Option<u8>, left: u8) -> Next
    ensures { result ≡ (if left == 0 then next.Header else next.Body service left) }
{
    match left {
        0 => Next::Header,
        _ => Next::Body { service, left },
    }
}

// What is made of a byte of a service.
fn byte_of(service: Option<u8>, value: u8) -> Step<BlockPart>
    ensures { result ≡ judge_service service value }
{
    match service {
        None => Step::Nothing,
        Some(service) => Step::One(BlockPart::Byte { service, value }),
    }
}

impl OpenBlock {
    ghost use Rattle.service_blocks.specs.Readers.{Keeps, next_of};

    /// No packet has come.
    pub(crate) fn new() -> OpenBlock
        ensures { Keeps nothing_open result }
    {
        OpenBlock {
            left: None,
            next: Next::Header,
        }
    }

    // Whether the byte after which this many are left is the packet's next one.
    fn is_next(&self, left: u8) -> bool
        ensures { result ≡ is_next self.now.left left }
    {
        match self.left {
            None => false,
            Some(before) => before.checked_sub(1) == Some(left),
        }
    }

    // Judges the header of a block, after which the packet has this many bytes left, and goes on after it where it isn't refused.
    fn header(&mut self, header: u8, left: u8) -> Step<BlockPart>
        ensures says { result ≡ judge_byte [] left header }
        ensures next { IsTaken result → self.new.next ≡ next_of (block_after [] header) }
        ensures left { self.new.left ≡ self.old.left }
    {
        let size = header % 32;
        let (rest, next) = match header / 32 {
            EXTENDED if size > 0 => (size + 1, Next::Second { size }),
            number => (size, body(standard(number), size)),
        };
        if rest > left {
            return Step::Refuse(Why::Overrun);
        }
        self.next = if header == 0 { Next::Ignored } else { next };
        Step::Nothing
    }

    // Judges a byte of the packet, after which this many are left, and goes on after it where it isn't refused.
    fn byte(&mut self, value: u8, left: u8) -> Step<BlockPart>
        ensures says { (block : List ℕ) → self.old.next ≡ next_of block
            → result ≡ judge_byte block left value }
        ensures next { (block : List ℕ) → self.old.next ≡ next_of block → IsTaken result
            → self.new.next ≡ next_of (block_after block value) }
        ensures left { self.new.left ≡ self.old.left }
    {
        match self.next {
            Next::Header => self.header(value, left),
            Next::Second { size } => {
                self.next = Next::Body {
                    service: extended(value),
                    left: size,
                };
                Step::Nothing
            }
            Next::Body { service, left } => {
                self.next = body(service, left.saturating_sub(1));
                byte_of(service, value)
            }
            Next::Ignored => Step::Nothing,
        }
    }
}

impl Machine<PacketPart, BlockPart> for OpenBlock {
    ghost use Rattle.std.proofs.Common.{rules};
    ghost use Rattle.service_blocks.specs.Readers.{Keeps};

    ghost Given = { Unit {0} };

    ghost Front = { Open };

    ghost syntax = { λ given. block_syntax };

    ghost Matches = { λ given front block. Keeps front block };

    ghost UNIT = { 1 };

    const UNIT: u64 = 1;

    fn step(&mut self, item: PacketPart) -> Step<BlockPart> {
        match item {
            PacketPart::Header { gap, size } => {
                self.left = Some(size);
                self.next = Next::Header;
                if gap {
                    Step::One(BlockPart::Reset)
                } else {
                    Step::Nothing
                }
            }
            PacketPart::Byte { value, left } if self.is_next(left) => {
                self.left = Some(left);
                self.byte(value, left)
            }
            PacketPart::Byte { .. } => Step::Nothing,
        }
    }

    ghost unit_is_positive = { Prim.search rules };

    ghost item_fits = { Prim.search rules };
}
