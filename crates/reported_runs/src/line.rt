ghost use Rattle.std.specs.Prelude.{◌≡◌, ◌<◌, ◌≤◌, Some, length};
ghost use Rattle.arrayvec.specs.ArrayVec.{array_vec_len};
ghost use Rattle.cc_base.specs.Streams.{PutCause, Puts};
ghost use Rattle.reported_runs.specs.Reports.{line_of, padded, text_of};

use crate::report::TEXT;
use arrayvec::ArrayVec;
use cc_base::{Put, Sink};
use ccsuite_cli::put_status;
use command_base::Status;

// The most bytes of a line.
const ROOM: usize = 159;

// A sink that keeps the front of what is put, of as many bytes as there is room for. It fails only when it is full.
#[derive(Drop)]
struct Line {
    bytes: ArrayVec<u8, ROOM>,
    faults: u64,
    ghost full: { 0 < faults → array_vec_len bytes ≡ 159 },
}

impl Sink for Line {
    ghost written = { λ line. Some line.bytes.items };

    ghost faults = { λ line. line.faults };

    fn put(&mut self, bytes: &[u8]) -> Put {
        let count = bytes.len().min(self.bytes.remaining_capacity());
        if self.bytes.try_extend_from_slice(&bytes[..count]).is_err() {
            unreachable!();
        }
        if count < bytes.len() {
            self.faults = self.faults.saturating_add(1);
            Put::Failed
        } else {
            Put::Done
        }
    }
}

/// The line of a status, of which Ok has none, and after it zeros: at least one. Where a line has more than 159 bytes, its front. No
/// run ends with Usage: an argument is out of range; nor does memory fail to take what is written but for room.
pub fn text_of(status: Status) -> [u8; TEXT]
    ensures { result ≡ text_of status }
{
    let mut line = Line {
        bytes: ArrayVec::new(),
        faults: 0,
    };
    let _ = put_line(status, &mut line);
    padded(line.bytes.as_slice())
}

/// A text that has room, and zeros after it.
pub(crate) fn padded<const SIZE: usize>(text: &[u8]) -> [u8; SIZE]
    requires { length text.now ≤ SIZE }
    ensures { result ≡ padded SIZE text.now }
{
    let mut all = [0; SIZE];
    all[..text.len()].copy_from_slice(text);
    all
}

// Puts the line of a status.
fn put_line<O: Sink>(status: Status, out: &mut O) -> Put
    ensures bytes { Puts (O.written out.old) (O.written out.new) result (line_of status) }
    ensures cause { PutCause (O.faults out.old) (O.faults out.new) result }
{
    match status {
        Status::Usage => out.put(b"argument out of range\n"),
        Status::WriteFault => out.put(b"too little room\n"),
        _ => put_status(status, out),
    }
}
