ghost use Rattle.std.specs.Prelude.{◌≡◌, IfNone, IfSome};
ghost use Rattle.cc_base.specs.Why.{reason_number};
ghost use Rattle.cc_base.specs.declared.why.Why.{Why as WhyOf};
ghost use Rattle.reported_runs.specs.Reasons.{reason_told, sentence_of};

use crate::line::padded;
use cc_base::Why;

/// A reason as it is reported, by texts with zeros after them.
#[repr(C)]
#[derive(Clone, Copy, PartialEq, Eq)]
pub struct Reason {
    /// Its name, as the program writes it.
    pub name: [u8; 32],
    /// What is wrong.
    pub sentence: [u8; 128],
}

/// The reason of a number, 1 to 46; not all have one.
pub fn reason_of(number: u32) -> Option<Why>
    ensures some { IfSome result (λ why. reason_number why ≡ number) }
    ensures none { IfNone result ((why : WhyOf) → reason_number why ≡ number → ⊥) }
{
    match number {
        1 => Some(Why::Overrun),
        2 => Some(Why::Identifier),
        3 => Some(Why::Length),
        4 => Some(Why::Rate),
        5 => Some(Why::Section),
        6 => Some(Why::Count),
        7 => Some(Why::Counter),
        8 => Some(Why::Sum),
        9 => Some(Why::HighBits),
        10 => Some(Why::WordParity),
        11 => Some(Why::Flag),
        12 => Some(Why::AncSum),
        13 => Some(Why::Truncated),
        14 => Some(Why::NoSuchTime),
        15 => Some(Why::Header),
        16 => Some(Why::SccSyntax),
        17 => Some(Why::Backwards),
        20 => Some(Why::Field),
        21 => Some(Why::NoCode),
        22 => Some(Why::Order),
        23 => Some(Why::Overlap),
        24 => Some(Why::Clash),
        25 => Some(Why::Unhidden),
        26 => Some(Why::WindowBusy),
        27 => Some(Why::DelayCovers),
        28 => Some(Why::Share),
        29 => Some(Why::PastEnd),
        31 => Some(Why::OffSlot),
        32 => Some(Why::FieldClash),
        33 => Some(Why::OtherList),
        34 => Some(Why::MccSyntax),
        40 => Some(Why::CounterJump),
        41 => Some(Why::WrongCount),
        42 => Some(Why::BufferFull),
        43 => Some(Why::GridDiffers),
        44 => Some(Why::WrongRate),
        45 => Some(Why::TwoPairs),
        46 => Some(Why::EightBits),
        _ => None,
    }
}

/// A reason as it is reported.
pub fn reason_told(why: Why) -> Reason
    ensures { result ≡ reason_told why }
{
    Reason {
        name: padded(why.name().as_bytes()),
        sentence: padded(sentence_of(why).as_bytes()),
    }
}

// What is wrong.
fn sentence_of(why: Why) -> &'static str
    ensures { result.now ≡ sentence_of why }
{
    match why {
        Why::Overrun => "A service block has more bytes than its packet has left.",
        Why::Identifier => "A distribution packet doesn't begin with 96 69.",
        Why::Length => {
            "A distribution packet's length isn't its ancillary packet's count, or is none that one can have."
        }
        Why::Rate => "A distribution packet's rate code is none of the eight.",
        Why::Section => "No section of a distribution packet can begin so.",
        Why::Count => "A section's count passes its packet, or leaves one byte of it.",
        Why::Counter => "A distribution packet's footer has another counter than its header.",
        Why::Sum => "A distribution packet's bytes don't sum to 0 modulo 256.",
        Why::HighBits => "A word is above 3FF, the last ten-bit value.",
        Why::WordParity => "An eight-bit word has the wrong bit 8 or 9.",
        Why::Flag => "An ancillary packet doesn't begin with 000 3FF 3FF.",
        Why::AncSum => "An ancillary packet's checksum word is another one.",
        Why::Truncated => "The bytes end within a word or a packet.",
        Why::NoSuchTime => "No frame has this time code.",
        Why::Header => "The first line of an SCC or MCC file is another one.",
        Why::SccSyntax => "No line of an SCC file goes on with this byte.",
        Why::Backwards => "A line's time code is before that of the line before.",
        Why::Field => "A field of a cue list is out of its form or range.",
        Why::NoCode => "A text has a character without a code for its kind of cue.",
        Why::Order => "Frames of a cue, or of neighbouring cues, are out of order.",
        Why::Overlap => "Runs of a cue share a cell, or cues of a channel are shown at once.",
        Why::Clash => "Two events of a channel need one slot.",
        Why::Unhidden => "A cue loads into what the cue before it still shows.",
        Why::WindowBusy => "A cue's window is still used by an earlier cue.",
        Why::DelayCovers => "A delay covers another cue's event.",
        Why::Share => "A window cue's service has no share of the frame.",
        Why::PastEnd => "A cue ends past the last frame.",
        Why::OffSlot => {
            "A line 21 cue is shown or hidden in a frame in which its field has no slot."
        }
        Why::FieldClash => "Events of two lists hold one slot of a field.",
        Why::OtherList => {
            "A second list has another rate or another number of frames than the first, or a share."
        }
        Why::MccSyntax => "No line of an MCC file goes on with this byte.",
        Why::CounterJump => "A packet's counter isn't the one before plus 1 modulo 65536.",
        Why::WrongCount => "A packet hasn't its rate's number of triplets.",
        Why::BufferFull => "A service's held bytes reached 128.",
        Why::GridDiffers => "What is shown isn't what was authored.",
        Why::WrongRate => "A packet's rate isn't the list's.",
        Why::TwoPairs => "A frame has more than one valid field 1 triplet.",
        Why::EightBits => {
            "A user word of an ancillary packet isn't an eight-bit word with its parity bits."
        }
    }
}
