//! A row as it stands after some of its lines.

use crate::line::{Calls, Change, Choice, Line};
use crate::report::{put_ended, put_line, put_low, put_parts};
use hex_digits::hex_value;
use memory_runs::words::frame_of;
use memory_runs::{Ended, Given, run_to_end};
use std::alloc::{AllocError, Global};
use std::mem;

/// Why a line isn't done.
#[derive(Drop)]
pub enum Stop {
    /// It is no line of the rows, or has a number or digits that are none.
    Unread,
    /// Out of memory.
    Memory(AllocError),
}

impl From<AllocError> for Stop {
    fn from(error: AllocError) -> Stop {
        Stop::Memory(error)
    }
}

/// What is set for the next run.
#[derive(Drop)]
struct Setting {
    piece: usize,
    room: usize,
    takes: Vec<u64>,
    side: Vec<u64>,
    puts: Vec<u64>,
    line: Vec<u64>,
    is_silent: bool,
}

impl Setting {
    /// Whole pieces, room for 200,000 bytes, no fault, and an output that is printed.
    fn new(alloc: Global) -> Setting {
        Setting {
            piece: usize::MAX,
            room: 200_000,
            takes: Vec::new(alloc),
            side: Vec::new(alloc),
            puts: Vec::new(alloc),
            line: Vec::new(alloc),
            is_silent: false,
        }
    }

    /// Sets something.
    fn set(&mut self, choice: Choice<'_>) -> Result<(), Stop> {
        match choice {
            Choice::Piece(size) => self.piece = size,
            Choice::Room(size) => self.room = size,
            Choice::Silent => self.is_silent = true,
            Choice::Failing(Calls::Takes, numbers) => add_numbers(&mut self.takes, numbers)?,
            Choice::Failing(Calls::Side, numbers) => add_numbers(&mut self.side, numbers)?,
            Choice::Failing(Calls::Puts, numbers) => add_numbers(&mut self.puts, numbers)?,
            Choice::Failing(Calls::Line, numbers) => add_numbers(&mut self.line, numbers)?,
        }
        Ok(())
    }
}

/// A row: the bytes that are held, the side file, the output that is due, what is set for the next run, and what the last one put.
#[derive(Drop)]
pub struct Row {
    held: Vec<u8>,
    side: Vec<u8>,
    due: Option<Vec<u8>>,
    setting: Setting,
    put: Vec<u8>,
}

impl Row {
    /// A row at its start.
    pub fn new(alloc: Global) -> Row {
        Row {
            held: Vec::new(alloc),
            side: Vec::new(alloc),
            due: None,
            setting: Setting::new(alloc),
            put: Vec::new(alloc),
        }
    }

    /// Does a line, and adds to the report what it prints.
    pub fn take(
        &mut self,
        alloc: Global,
        line: Option<Line<'_>>,
        report: &mut Vec<u8>,
    ) -> Result<(), Stop> {
        match line.ok_or(Stop::Unread)? {
            Line::Remark => (),
            Line::Row(name) => {
                *self = Row::new(alloc);
                put_line(report, "row", name)?;
            }
            Line::Held(change) => self.change(alloc, change)?,
            Line::Side => self.side = self.give_up(alloc),
            Line::Due => self.due = Some(self.give_up(alloc)),
            Line::Hold => self.held = self.put.as_slice().to_vec(alloc)?,
            Line::Keep(size) => self.keep(alloc, size)?,
            Line::Next(choice) => self.setting.set(choice)?,
            Line::RunAlone => {
                report.extend_from_slice(b"run\n")?;
                self.run(alloc, &[], report)?;
            }
            Line::Run(text, mark) => self.run_words(alloc, text, mark, report)?,
            Line::Feed(text) => self.feed(alloc, text, report)?,
            Line::Cut(parts) => put_parts(report, &self.put, parts)?,
            Line::Low(parts) => put_low(report, &self.put, parts)?,
        }
        Ok(())
    }

    /// The bytes that are held; none are after it.
    fn give_up(&mut self, alloc: Global) -> Vec<u8> {
        mem::replace(&mut self.held, Vec::new(alloc))
    }

    /// Has the first bytes of the last output be due. They have to be there.
    fn keep(&mut self, alloc: Global, size: usize) -> Result<(), Stop> {
        let front = self.put.get(..size).ok_or(Stop::Unread)?;
        self.due = Some(front.to_vec(alloc)?);
        Ok(())
    }

    /// Changes the bytes that are held.
    fn change(&mut self, alloc: Global, change: Change<'_>) -> Result<(), Stop> {
        match change {
            Change::Line(text) => {
                self.held.extend_from_slice(text.as_bytes())?;
                self.held.extend_from_slice(b"\n")?;
            }
            Change::Text(text) => self.held.extend_from_slice(text.as_bytes())?,
            Change::Hex(times, digits) => {
                let bytes = bytes_of(alloc, digits)?;
                for _ in 0..times {
                    self.held.extend_from_slice(&bytes)?;
                }
            }
            Change::Packet(digits) => {
                let frame = frame_of(alloc, &bytes_of(alloc, digits)?)?;
                self.held.extend_from_slice(&frame)?;
            }
            Change::Set(at, digits) => {
                let bytes = bytes_of(alloc, digits)?;
                self.replace(alloc, at, &bytes, bytes.len())?;
            }
            Change::Drop(at, count) => self.replace(alloc, at, &[], count)?,
        }
        Ok(())
    }

    /// Has bytes stand in place of this many of those that are held, from a place on. All of these have to be there.
    fn replace(
        &mut self,
        alloc: Global,
        at: usize,
        bytes: &[u8],
        count: usize,
    ) -> Result<(), Stop> {
        let front = self.held.get(..at).ok_or(Stop::Unread)?;
        let rest = self
            .held
            .get(at.saturating_add(count)..)
            .ok_or(Stop::Unread)?;
        let mut held = front.to_vec(alloc)?;
        held.extend_from_slice(bytes)?;
        held.extend_from_slice(rest)?;
        self.held = held;
        Ok(())
    }

    /// Runs the program with the words of a text, split at a character, and says how the run ended.
    fn run_words(
        &mut self,
        alloc: Global,
        text: &str,
        mark: char,
        report: &mut Vec<u8>,
    ) -> Result<(), AllocError> {
        report.extend_from_slice(if mark == ' ' { b"run " } else { b"run|" })?;
        report.extend_from_slice(text.as_bytes())?;
        report.extend_from_slice(b"\n")?;
        let words: Vec<&str> = text.split(mark).collect(alloc)?;
        self.run(alloc, &words, report)
    }

    /// Runs the program, and says how the run ended.
    fn run(
        &mut self,
        alloc: Global,
        words: &[&str],
        report: &mut Vec<u8>,
    ) -> Result<(), AllocError> {
        let is_silent = self.setting.is_silent;
        let ended = self.end(alloc, words)?;
        put_ended(report, &ended, self.due.as_deref(), is_silent)?;
        self.put = ended.out.bytes().to_vec(alloc)?;
        Ok(())
    }

    /// Runs the program, and holds what the run put. A status other than 0 is said.
    fn feed(&mut self, alloc: Global, text: &str, report: &mut Vec<u8>) -> Result<(), AllocError> {
        let words: Vec<&str> = text.split(' ').collect(alloc)?;
        let ended = self.end(alloc, &words)?;
        if ended.status.code() != 0 {
            put_line(report, "feed", text)?;
            put_ended(report, &ended, None, false)?;
        }
        self.held = ended.out.bytes().to_vec(alloc)?;
        Ok(())
    }

    /// Runs the program to its end on what is held and set. Nothing is set after it.
    fn end(&mut self, alloc: Global, words: &[&str]) -> Result<Ended, AllocError> {
        let setting = mem::replace(&mut self.setting, Setting::new(alloc));
        run_to_end(
            alloc,
            Given {
                words,
                text: &self.held,
                piece: setting.piece,
                side: &self.side,
                failing_side: &setting.side,
                failing_takes: &setting.takes,
                failing_puts: &setting.puts,
                failing_line: &setting.line,
                room: setting.room,
            },
        )
    }
}

/// Adds the numbers of a text.
fn add_numbers(numbers: &mut Vec<u64>, text: &str) -> Result<(), Stop> {
    for word in text.split(' ') {
        let number = word.parse().ok().ok_or(Stop::Unread)?;
        numbers.extend_from_slice(&[number])?;
    }
    Ok(())
}

/// The bytes of hex digits. Blanks between them don't count.
fn bytes_of(alloc: Global, digits: &str) -> Result<Vec<u8>, Stop> {
    let mut bytes = Vec::new(alloc);
    let mut high = None;
    for digit in digits.bytes() {
        if digit == b' ' {
            continue;
        }
        let value = hex_value(digit).ok_or(Stop::Unread)?;
        match high {
            None => high = Some(value),
            Some(first) => {
                bytes.extend_from_slice(&[(first << 4) | value])?;
                high = None;
            }
        }
    }
    match high {
        None => Ok(bytes),
        Some(_) => Err(Stop::Unread),
    }
}
