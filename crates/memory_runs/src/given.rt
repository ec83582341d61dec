/// What a run is given: its words, its input and its side file, which of their calls fail, and what its output takes.
#[derive(Clone, Copy)]
pub struct Given<'a> {
    /// The words after the program's name.
    pub words: &'a [&'a str],
    /// The bytes of the input.
    pub text: &'a [u8],
    /// The most bytes that a take gives; 0 counts as 1.
    pub piece: usize,
    /// The bytes of the side file, whatever its name.
    pub side: &'a [u8],
    /// The numbers of the takes of the side file that fail, counted from 0.
    pub failing_side: &'a [u64],
    /// The numbers of the takes of the input that fail.
    pub failing_takes: &'a [u64],
    /// The numbers of the puts to the output that fail, of those that aren't empty.
    pub failing_puts: &'a [u64],
    /// The numbers of the puts to the error output that fail: the puts of the status line's pieces.
    pub failing_line: &'a [u64],
    /// The most bytes that the output takes.
    pub room: usize,
}
