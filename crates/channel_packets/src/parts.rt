/// A part of a caption channel packet that a reader of its triplets hands upward.
#[derive(Clone, Copy, PartialEq, Eq)]
pub enum PacketPart {
    /// A packet begins with its header.
    Header {
        /// Whether a packet is missing before it: its number isn't the next one, counted modulo 4. The first packet makes no
        /// gap.
        gap: bool,
        /// The number of the packet's bytes after the header, odd and from 1 to 127. Fewer may come.
        size: u8,
    },
    /// The next byte of the packet.
    Byte {
        /// The byte.
        value: u8,
        /// The number of the packet's bytes after this one. Fewer may come.
        left: u8,
    },
}
