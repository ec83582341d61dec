//! Runs without a fault.

use memory_runs::Given;

/// A run of these words on a text, in whole pieces, with an empty side file.
pub fn given_of<'a>(words: &'a [&'a str], text: &'a [u8]) -> Given<'a> {
    Given {
        words,
        text,
        piece: usize::MAX,
        side: &[],
        failing_side: &[],
        failing_takes: &[],
        failing_puts: &[],
        failing_line: &[],
        room: 200_000,
    }
}
