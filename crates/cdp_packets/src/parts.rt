use cc_base::Rate;
use cc_data::Triplet;

/// A part of a caption distribution packet that a reader of its bytes hands upward.
#[derive(Clone, Copy, PartialEq, Eq)]
pub enum CdpPart {
    /// The frame rate.
    Rate(Rate),
    /// The flags.
    Flags(u8),
    /// The packet's number.
    Counter(u16),
    /// The next byte of a section; its id and count come as such parts too.
    SectionByte(u8),
    /// The first two bytes of a triplet of cc_data have come: the triplet that they make with a third byte 00. It comes
    /// after the second byte.
    Half(Triplet),
    /// A triplet of cc_data is whole. It follows its third byte.
    Triplet(Triplet),
    /// The packet ends, with the byte that makes its sum 0.
    End,
}
