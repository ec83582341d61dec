/// A part of an ancillary packet that a reader of words hands upward.
#[derive(Clone, Copy, PartialEq, Eq)]
pub enum WordPart {
    /// A packet begins: its identifiers, and the number of its user words.
    Start {
        /// The data identifier.
        did: u8,
        /// The secondary data identifier, or the data block number.
        sdid: u8,
        /// The number of user words.
        count: u8,
    },
    /// The next user word, of ten bits.
    User(u16),
    /// The packet ends, with its checksum word.
    End,
}
