/// A part of the service blocks that a reader of channel packets' parts hands upward.
#[derive(Clone, Copy, PartialEq, Eq)]
pub enum BlockPart {
    /// A channel packet is missing: all services begin anew.
    Reset,
    /// The next byte of a service.
    Byte {
        /// The number of the service, 1 to 63.
        service: u8,
        /// The byte.
        value: u8,
    },
}
