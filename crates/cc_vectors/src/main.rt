//! Rows: runs of the program over memory, each beside what is due of it. Standard input has what each run is given, a line a step; standard
//! output says how each run ends.
//!
//! A line is a word and the rest after a blank. Empty lines, and those that begin with `#`, are for readers. `row NAME` begins a row, with
//! everything as at the start: nothing is held, there is no side file, and no output is due.
//!
//! These change the bytes that are held. `line TEXT` adds a line, `text TEXT` the same without its end, `hex DIGITS` bytes, and `times N DIGITS`
//! bytes N times over. `packet DIGITS` adds the packet of captions that carries a distribution packet, given without its last byte. `set AT DIGITS`
//! puts bytes over others, `drop AT COUNT` takes some away, and `hold` holds what the last run put. `side` makes the bytes that are held the side
//! file, and `due` the output that is due; `keep N` has the first bytes that the last run put be due.
//!
//! `piece N`, `room N` and `failing takes|side|puts|line N ..` say the most bytes of each take of the next run, the room of its output, and which of its
//! calls fail, counted from 0. `silent` leaves its output out of what is printed.
//!
//! `run WORD ..` runs the program on the bytes that are held, and `run|WORD|WORD ..` does so with words that may have blanks. `feed WORD ..` runs it too,
//! and holds what the run put. `cut AT EVERY COUNT` prints parts of what the last run put. `low AT EVERY COUNT` prints the low bytes of the words in each
//! part, after the number of such parts that come one after another.
#![tactic(auto)]

mod line;
mod report;
mod row;

use crate::line::read_line;
use crate::report::put_line;
use crate::row::{Row, Stop};
use std::io::{self, BufRead, BufReader, Write};

fn main(rt: HostRuntime) -> io::Result<()> {
    let alloc = rt.alloc();
    let mut out = rt.stdout();
    let mut row = Row::new(alloc);
    for text in BufReader::new(alloc, rt.reader())?.lines(alloc) {
        let text = text?;
        let mut report = Vec::new(alloc);
        match row.take(alloc, read_line(text.as_str()), &mut report) {
            Ok(()) => (),
            Err(Stop::Unread) => put_line(&mut report, "unread", text.as_str())?,
            Err(Stop::Memory(error)) => return Err(io::Error::from(error)),
        }
        out.write_all(&report)?;
    }
    Ok(())
}
