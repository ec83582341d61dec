ghost use Rattle.std.specs.Prelude.{◌≡◌};
ghost use Rattle.cc_base.specs.Why.{reason_number, name_of};

/// The reason of a refusal, of a broken rule or of a finding.
#[derive(Clone, Copy, Debug, PartialEq, Eq)]
pub enum Why {
    /// A service block is larger than what its packet has left (CTA-708-E, 6).
    Overrun,
    /// A distribution packet doesn't begin with 96 69 (SMPTE ST 334-2, cdp_header).
    Identifier,
    /// A distribution packet's length isn't its ancillary packet's count, or is none that a packet can have (SMPTE ST 334-2,
    /// cdp_header).
    Length,
    /// A distribution packet's rate code is none of the eight (SMPTE ST 334-2, cdp_header).
    Rate,
    /// No section of a distribution packet can begin so (SMPTE ST 334-2).
    Section,
    /// A section's count passes the packet, or leaves one byte of it (SMPTE ST 334-2).
    Count,
    /// A distribution packet's footer has another counter than its header (SMPTE ST 334-2, cdp_footer).
    Counter,
    /// A distribution packet's bytes don't sum to 0 modulo 256 (SMPTE ST 334-2, cdp_footer).
    Sum,
    /// A word is above 3FF, the last ten-bit value (SMPTE ST 291-1).
    HighBits,
    /// An eight-bit word has the wrong bit 8 or 9 (SMPTE ST 291-1).
    WordParity,
    /// An ancillary packet doesn't begin with 000 3FF 3FF (SMPTE ST 291-1).
    Flag,
    /// An ancillary packet's checksum word is another one (SMPTE ST 291-1).
    AncSum,
    /// The bytes end within a word or a packet.
    Truncated,
    /// No frame has this time code.
    NoSuchTime,
    /// An SCC file's first line is another one.
    Header,
    /// No line of an SCC file can continue with this byte.
    SccSyntax,
    /// An SCC line's time code is before the previous line's.
    Backwards,
    /// A field of a cue list is out of its form or range.
    Field,
    /// A text has a character without a code for its kind of cue.
    NoCode,
    /// Frames of a cue, or of neighbouring cues, are out of order.
    Order,
    /// Runs of a cue share a cell, or cues of a channel are shown at once.
    Overlap,
    /// Two events of a channel need one slot.
    Clash,
    /// A cue loads into what the cue before it still shows.
    Unhidden,
    /// A cue's window is still used by an earlier cue.
    WindowBusy,
    /// A delay covers another cue's event.
    DelayCovers,
    /// A window cue's service has no share of the frame.
    Share,
    /// A cue ends past the last frame.
    PastEnd,
    /// A line 21 cue is shown or hidden in a frame in which its field has no slot.
    OffSlot,
    /// Events of two lists hold one slot of a field.
    FieldClash,
    /// A second list has another rate or another number of frames than the first, or a share.
    OtherList,
    /// No line of an MCC file can continue with this byte.
    MccSyntax,
    /// A packet's counter isn't the one before plus 1 modulo 65536.
    CounterJump,
    /// A packet hasn't its rate's number of triplets.
    WrongCount,
    /// A service's held bytes reached 128.
    BufferFull,
    /// What is shown isn't what was authored.
    GridDiffers,
    /// A packet's rate isn't the list's.
    WrongRate,
    /// A frame has more than one valid field 1 triplet.
    TwoPairs,
    /// A user word of an ancillary packet isn't an eight-bit word with its parity bits.
    EightBits,
}

impl Why {
    /// The reason's number: 1 to 13 for words and packets, 14 to 17 for SCC files, and 20 to 29 and 31 for cue lists
    /// and their rules. It is 32 and 33 for two lists, 34 for MCC files, and 40 to 46 for findings.
    pub fn number(self) -> u8
        ensures { result ≡ reason_number self }
    {
        match self {
            Why::Overrun => 1,
            Why::Identifier => 2,
            Why::Length => 3,
            Why::Rate => 4,
            Why::Section => 5,
            Why::Count => 6,
            Why::Counter => 7,
            Why::Sum => 8,
            Why::HighBits => 9,
            Why::WordParity => 10,
            Why::Flag => 11,
            Why::AncSum => 12,
            Why::Truncated => 13,
            Why::NoSuchTime => 14,
            Why::Header => 15,
            Why::SccSyntax => 16,
            Why::Backwards => 17,
            Why::Field => 20,
            Why::NoCode => 21,
            Why::Order => 22,
            Why::Overlap => 23,
            Why::Clash => 24,
            Why::Unhidden => 25,
            Why::WindowBusy => 26,
            Why::DelayCovers => 27,
            Why::Share => 28,
            Why::PastEnd => 29,
            Why::OffSlot => 31,
            Why::FieldClash => 32,
            Why::OtherList => 33,
            Why::MccSyntax => 34,
            Why::CounterJump => 40,
            Why::WrongCount => 41,
            Why::BufferFull => 42,
            Why::GridDiffers => 43,
            Why::WrongRate => 44,
            Why::TwoPairs => 45,
            Why::EightBits => 46,
        }
    }

    /// The reason's name, as it is printed.
    pub fn name(self) -> &'static str
        ensures { result.now ≡ name_of self }
    {
        match self {
            Why::Overrun => "Overrun",
            Why::Identifier => "Identifier",
            Why::Length => "Length",
            Why::Rate => "Rate",
            Why::Section => "Section",
            Why::Count => "Count",
            Why::Counter => "Counter",
            Why::Sum => "Sum",
            Why::HighBits => "HighBits",
            Why::WordParity => "WordParity",
            Why::Flag => "Flag",
            Why::AncSum => "AncSum",
            Why::Truncated => "Truncated",
            Why::NoSuchTime => "NoSuchTime",
            Why::Header => "Header",
            Why::SccSyntax => "SccSyntax",
            Why::Backwards => "Backwards",
            Why::Field => "Field",
            Why::NoCode => "NoCode",
            Why::Order => "Order",
            Why::Overlap => "Overlap",
            Why::Clash => "Clash",
            Why::Unhidden => "Unhidden",
            Why::WindowBusy => "WindowBusy",
            Why::DelayCovers => "DelayCovers",
            Why::Share => "Share",
            Why::PastEnd => "PastEnd",
            Why::OffSlot => "OffSlot",
            Why::FieldClash => "FieldClash",
            Why::OtherList => "OtherList",
            Why::MccSyntax => "MccSyntax",
            Why::CounterJump => "CounterJump",
            Why::WrongCount => "WrongCount",
            Why::BufferFull => "BufferFull",
            Why::GridDiffers => "GridDiffers",
            Why::WrongRate => "WrongRate",
            Why::TwoPairs => "TwoPairs",
            Why::EightBits => "EightBits",
        }
    }
}
