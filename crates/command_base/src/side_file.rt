ghost use Rattle.command_base.specs.SideFiles.{faults_in, left_in};

use cc_base::{ReaderSource, Source, Took};
use std::io::Read;

/// Where the bytes of a side file come from.
#[derive(Drop)]
pub enum SideFile<R: Read> {
    /// The file that was opened.
    Opened(ReaderSource<R>),
    /// A file that couldn't be opened: each take fails, and raises this count of faults, up to its last value.
    Missing(u64),
    /// No side file: it has no byte.
    Empty,
}

impl<R: Read> Source for SideFile<R> {
    ghost left = { λ side. left_in R.remaining side };

    ghost faults = { λ side. faults_in side };

    fn take(&mut self, buf: &mut [u8]) -> Took {
        match self {
            SideFile::Opened(source) => source.take(buf),
            SideFile::Missing(faults) => {
                *faults = faults.saturating_add(1);
                Took::Failed
            }
            SideFile::Empty => Took::End,
        }
    }
}
