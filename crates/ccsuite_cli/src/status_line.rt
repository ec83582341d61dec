ghost use Rattle.std.specs.Prelude.{◌≡◌, ◌∷◌, [], decimal};
ghost use Rattle.cc_base.specs.Streams.{PutCause, Puts};
ghost use Rattle.cc_base.specs.Texts.{text};
ghost use Rattle.ccsuite_cli.specs.StatusLine.{status_line};

use crate::command::USAGE;
use crate::finding_line::put_finding;
use crate::misfit_line::put_misfit;
use cc_base::{Put, Sink, Why, put_pieces};
use command_base::{Place, Status};
use cue_lists::RuleFault;
use itoa::Buffer;

/// Puts the status's one line; nothing for Ok.
pub fn put_status<E: Sink>(status: Status, err: &mut E) -> Put
    ensures bytes { Puts (E.written err.old) (E.written err.new) result (status_line status) }
    ensures cause { PutCause (E.faults err.old) (E.faults err.new) result }
{
    match status {
        Status::Ok => put_pieces(&[], err),
        Status::Usage => put_pieces(&[USAGE], err),
        Status::ReadFault => put_pieces(&[b"read fault\n"], err),
        Status::WriteFault => put_pieces(&[b"write fault\n"], err),
        Status::Memory => put_pieces(&[b"out of memory\n"], err),
        Status::Limit(limit) => put_pieces(&[b"limit ", limit.name().as_bytes(), b"\n"], err),
        Status::Malformed(place, why) => put_malformed(place, why, err),
        Status::Rule(fault) => put_rule(fault, err),
        Status::NoRoom(cue) => put_numbered(b"no room: cue ", cue, b"\n", err),
        Status::Differs(finding) => put_finding(finding.frame, finding.kind, err),
        Status::Short(frames) => put_numbered(b"short: ", frames, b" frames\n", err),
        Status::NoRoomBeside(second) => put_numbered(b"no room in CUES: cue ", second, b"\n", err),
        Status::NoXdsRoom(packet) => put_numbered(b"no room: packet ", packet, b"\n", err),
        Status::Misfit(misfit) => put_misfit(misfit.frame, misfit.kind, err),
    }
}

/// Puts a line with a number between two texts.
fn put_numbered<E: Sink>(before: &[u8], number: u32, behind: &[u8], err: &mut E) -> Put
    ensures bytes { Puts (E.written err.old) (E.written err.new) result
        (text (before.now ∷ decimal number ∷ behind.now ∷ [])) }
    ensures cause { PutCause (E.faults err.old) (E.faults err.new) result }
{
    put_pieces(
        &[before, Buffer::new().format(number).as_bytes(), behind],
        err,
    )
}

/// Puts the line of a malformed input.
fn put_malformed<E: Sink>(place: Place, why: Why, err: &mut E) -> Put
    ensures bytes { Puts (E.written err.old) (E.written err.new) result
        (status_line (Status.Malformed place why)) }
    ensures cause { PutCause (E.faults err.old) (E.faults err.new) result }
{
    let name = why.name().as_bytes();
    match place {
        Place::Byte(byte) => put_pieces(
            &[
                b"malformed at byte ",
                Buffer::new().format(byte).as_bytes(),
                b": ",
                name,
                b"\n",
            ],
            err,
        ),
        Place::Field { rec, field } => put_pieces(
            &[
                b"malformed at record ",
                Buffer::new().format(rec).as_bytes(),
                b" field ",
                Buffer::new().format(field).as_bytes(),
                b": ",
                name,
                b"\n",
            ],
            err,
        ),
    }
}

/// Puts the line of a broken rule.
fn put_rule<E: Sink>(fault: RuleFault, err: &mut E) -> Put
    ensures bytes { Puts (E.written err.old) (E.written err.new) result
        (status_line (Status.Rule fault)) }
    ensures cause { PutCause (E.faults err.old) (E.faults err.new) result }
{
    let name = fault.why.name().as_bytes();
    match fault.other {
        None => put_pieces(
            &[
                b"rule ",
                name,
                b": cue ",
                Buffer::new().format(fault.cue).as_bytes(),
                b"\n",
            ],
            err,
        ),
        Some(other) => put_pieces(
            &[
                b"rule ",
                name,
                b": cue ",
                Buffer::new().format(fault.cue).as_bytes(),
                b" and cue ",
                Buffer::new().format(other).as_bytes(),
                b"\n",
            ],
            err,
        ),
    }
}
