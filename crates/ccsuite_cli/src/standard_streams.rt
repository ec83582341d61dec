use crate::command::side_of;
use crate::program::run;
use crate::unread_words::run_without_words;
use cc_base::{ReaderSource, WriterSink};
use command_base::SideFile;
use std::fs::File;
use std::io::{Read, Stdin};
use std::process::ExitCode;
use std::{env, io};

/// The program: runs the command of the words after its name over standard input, output and error, and ends with the status's
/// code.
pub fn start(rt: HostRuntime) -> ExitCode {
    let alloc = rt.alloc();
    let mut err = WriterSink::new(rt.stderr());
    let status = match read_words(&rt) {
        Ok(words) => {
            let mut input = ReaderSource::new(rt.stdin());
            let mut side = open_side(&rt, &words);
            let mut out = WriterSink::new(rt.stdout());
            run(alloc, &words, &mut input, &mut side, &mut out, &mut err)
        }
        Err(error) => run_without_words(error.kind(), &mut err),
    };
    ExitCode::from(status.code())
}

/// The side file that the words name, if they name one. A path that doesn't open, for whatever cause, is a missing file; and so is
/// each where standard input is closed, since the file would be opened as standard input.
fn open_side(rt: &HostRuntime, words: &[String]) -> SideFile<File> {
    let Some(path) = side_of(words) else {
        return SideFile::Empty;
    };
    if !is_open(rt.stdin()) {
        return SideFile::Missing(0);
    }
    match File::open(rt, path) {
        Ok(file) => SideFile::Opened(ReaderSource::new(file)),
        Err(_) => SideFile::Missing(0),
    }
}

/// Whether standard input is open: to read no byte of it fails where it isn't.
fn is_open(mut input: Stdin) -> bool {
    input.read(&mut []).is_ok()
}

/// The words after the program's name.
fn read_words(rt: &HostRuntime) -> io::Result<Vec<String>> {
    Ok(env::args(rt)?.skip(1).collect(rt.alloc())?)
}
