//! What is printed of a run.

use crate::line::Parts;
use hex_digits::upper_hex_digit;
use itoa::Buffer;
use memory_runs::Ended;
use std::alloc::AllocError;
use std::str;

/// The bytes of a line of hex.
const BYTES_A_LINE: usize = 40;

/// Adds a line of a word and the rest.
pub fn put_line(report: &mut Vec<u8>, word: &str, rest: &str) -> Result<(), AllocError> {
    report.extend_from_slice(word.as_bytes())?;
    report.extend_from_slice(b" ")?;
    report.extend_from_slice(rest.as_bytes())?;
    report.extend_from_slice(b"\n")
}

/// Adds how a run ended: its status, its output, and its error line. `is_bare` leaves out the output's bytes.
pub fn put_ended(
    report: &mut Vec<u8>,
    ended: &Ended,
    due: Option<&[u8]>,
    is_bare: bool,
) -> Result<(), AllocError> {
    let mut buffer = Buffer::new();
    put_line(report, "status", buffer.format(ended.status.code()))?;
    if due == Some(ended.out.bytes()) {
        report.extend_from_slice(b"out as due\n")?;
    } else {
        put_size(report, ended.out.bytes().len())?;
        if !is_bare {
            put_bytes(report, ended.out.bytes())?;
        }
    }
    put_error(report, ended.err.bytes())
}

/// Adds the size of an output.
fn put_size(report: &mut Vec<u8>, size: usize) -> Result<(), AllocError> {
    let mut buffer = Buffer::new();
    report.extend_from_slice(b"out ")?;
    report.extend_from_slice(buffer.format(size).as_bytes())?;
    report.extend_from_slice(b" bytes\n")
}

/// Adds an error output, which is a line or a front of one.
fn put_error(report: &mut Vec<u8>, line: &[u8]) -> Result<(), AllocError> {
    match line.split_last() {
        None => report.extend_from_slice(b"err\n"),
        Some((b'\n', front)) => {
            report.extend_from_slice(b"err ")?;
            report.extend_from_slice(front)?;
            report.extend_from_slice(b"\n")
        }
        Some(_) => {
            report.extend_from_slice(b"err+ ")?;
            report.extend_from_slice(line)?;
            report.extend_from_slice(b"\n")
        }
    }
}

/// Adds bytes: as lines of text, if they are of characters, tabs and line feeds alone, and else as hex.
pub fn put_bytes(report: &mut Vec<u8>, bytes: &[u8]) -> Result<(), AllocError> {
    match str::from_utf8(bytes) {
        Ok(text) if is_plain(bytes) => put_text(report, text),
        _ => put_hex(report, bytes),
    }
}

/// Whether bytes have no control character but tabs and line feeds.
fn is_plain(bytes: &[u8]) -> bool {
    for byte in bytes {
        match *byte {
            b'\t' | b'\n' => (),
            0..=31 | 127 => return false,
            _ => (),
        }
    }
    true
}

/// Adds a text: its lines, each after `|`, and a last one without a line feed after `+`.
fn put_text(report: &mut Vec<u8>, text: &str) -> Result<(), AllocError> {
    let last = match text.rsplit_once('\n') {
        Some((lines, last)) => {
            put_lines(report, lines)?;
            last
        }
        None => text,
    };
    if last.is_empty() {
        return Ok(());
    }
    report.extend_from_slice(b"+")?;
    report.extend_from_slice(last.as_bytes())?;
    report.extend_from_slice(b"\n")
}

/// Adds lines, each after `|`.
fn put_lines(report: &mut Vec<u8>, lines: &str) -> Result<(), AllocError> {
    for line in lines.split('\n') {
        report.extend_from_slice(b"|")?;
        report.extend_from_slice(line.as_bytes())?;
        report.extend_from_slice(b"\n")?;
    }
    Ok(())
}

/// Adds lines of hex, each after `=`.
fn put_hex(report: &mut Vec<u8>, bytes: &[u8]) -> Result<(), AllocError> {
    for line in bytes.chunks(BYTES_A_LINE) {
        report.push(b'=')?;
        put_groups(report, line)?;
        report.push(b'\n')?;
    }
    Ok(())
}

/// Adds the digits of bytes, two bytes a group.
fn put_groups(report: &mut Vec<u8>, bytes: &[u8]) -> Result<(), AllocError> {
    for (at, byte) in bytes.iter().enumerate() {
        if at > 0 && at % 2 == 0 {
            report.push(b' ')?;
        }
        put_byte(report, *byte)?;
    }
    Ok(())
}

/// Adds the digits of a byte.
fn put_byte(report: &mut Vec<u8>, byte: u8) -> Result<(), AllocError> {
    report.extend_from_slice(&[upper_hex_digit(byte / 16), upper_hex_digit(byte % 16)])
}

/// The first bytes of a part; all if it has fewer.
fn front(rest: &[u8], count: usize) -> &[u8] {
    rest.get(..count).unwrap_or(rest)
}

/// Adds parts of an output, each as such an output is added.
pub fn put_parts(report: &mut Vec<u8>, output: &[u8], parts: Parts) -> Result<(), AllocError> {
    let rest = output.get(parts.at..).unwrap_or(b"");
    for part in rest.chunks(parts.every.max(1)) {
        put_bytes(report, front(part, parts.count))?;
    }
    Ok(())
}

/// Adds the low bytes of the words in parts of an output, a line for those that come one after another and are the same.
pub fn put_low(report: &mut Vec<u8>, output: &[u8], parts: Parts) -> Result<(), AllocError> {
    let rest = output.get(parts.at..).unwrap_or(b"");
    let mut last: &[u8] = b"";
    let mut times = 0usize;
    for part in rest.chunks(parts.every.max(1)) {
        let part = front(part, parts.count);
        if times > 0 && part != last {
            put_times(report, times, last)?;
            times = 0;
        }
        last = part;
        times = times.saturating_add(1);
    }
    put_times(report, times, last)
}

/// Adds a line of how many parts have these words, and of their low bytes.
fn put_times(report: &mut Vec<u8>, times: usize, words: &[u8]) -> Result<(), AllocError> {
    let mut buffer = Buffer::new();
    report.push(b'*')?;
    report.extend_from_slice(buffer.format(times).as_bytes())?;
    report.push(b' ')?;
    for word in words.chunks(2) {
        match word.last() {
            Some(low) => put_byte(report, *low)?,
            None => (),
        }
    }
    report.extend_from_slice(b"\n")
}
