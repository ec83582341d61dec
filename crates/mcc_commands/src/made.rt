ghost use Rattle.std.specs.Prelude.{◌≤◌};

use mcc_words::MccWords;

/// The words that were made of packets.
#[derive(Clone, Copy)]
pub struct Made {
    pub(crate) words: MccWords,
    // How many frames they have, and how many bytes.
    pub(crate) frames: u64,
    pub(crate) bytes: u64,
    ghost few: { frames ≤ 5184000 },
    ghost short: { bytes ≤ 2147483647 },
}
