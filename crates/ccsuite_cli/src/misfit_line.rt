ghost use Rattle.std.specs.Prelude.{◌≡◌, ◌++◌, codes, decimal};
ghost use Rattle.cc_base.specs.Streams.{PutCause, Puts};
ghost use Rattle.findings.specs.declared.misfit.MisfitKind.TheVariants.{Changed};
ghost use Rattle.ccsuite_cli.specs.StatusLine.{line_of_misfit, misfit_text};
ghost use Rattle.line21_codes.specs.Channels.{channel_name};

use cc_base::{Put, Sink, put_pieces};
use findings::{MisfitKind, Which};
use itoa::Buffer;
use line21_codes::Chan;

/// Puts the line of a frame that can't be converted.
pub fn put_misfit<E: Sink>(frame: u32, kind: MisfitKind, err: &mut E) -> Put
    ensures bytes { Puts (E.written err.old) (E.written err.new) result
        (line_of_misfit frame kind) }
    ensures cause { PutCause (E.faults err.old) (E.faults err.new) result }
{
    match kind {
        MisfitKind::Rate(code) => put_number(frame, kind, u16::from(code), err),
        MisfitKind::Count(seen) => put_number(frame, kind, seen, err),
        MisfitKind::One(seen) => put_number(frame, kind, seen, err),
        MisfitKind::Two(seen) => put_number(frame, kind, seen, err),
        MisfitKind::Many(seen) => put_number(frame, kind, seen, err),
        MisfitKind::Changed(which) => put_changed(frame, which, err),
    }
}

/// Puts the line of a misfit of which a number was seen.
fn put_number<E: Sink>(frame: u32, kind: MisfitKind, seen: u16, err: &mut E) -> Put
    ensures bytes { Puts (E.written err.old) (E.written err.new) result
        (misfit_text frame kind (decimal seen)) }
    ensures cause { PutCause (E.faults err.old) (E.faults err.new) result }
{
    put_pieces(
        &[
            b"misfit at frame ",
            Buffer::new().format(frame).as_bytes(),
            b": ",
            kind.name().as_bytes(),
            b" ",
            Buffer::new().format(seen).as_bytes(),
            b"\n",
        ],
        err,
    )
}

/// Puts the line of a channel or a service that would show something else.
fn put_changed<E: Sink>(frame: u32, which: Which, err: &mut E) -> Put
    ensures bytes { Puts (E.written err.old) (E.written err.new) result
        (line_of_misfit frame (Changed which)) }
    ensures cause { PutCause (E.faults err.old) (E.faults err.new) result }
{
    let kind = MisfitKind::Changed(which);
    match which {
        Which::Chan(chan) => put_channel(frame, kind, chan, err),
        Which::Service(service) => put_service(frame, kind, service, err),
    }
}

/// Puts the line of a channel that would show something else.
fn put_channel<E: Sink>(frame: u32, kind: MisfitKind, chan: Chan, err: &mut E) -> Put
    ensures bytes { Puts (E.written err.old) (E.written err.new) result
        (misfit_text frame kind (channel_name chan)) }
    ensures cause { PutCause (E.faults err.old) (E.faults err.new) result }
{
    put_pieces(
        &[
            b"misfit at frame ",
            Buffer::new().format(frame).as_bytes(),
            b": ",
            kind.name().as_bytes(),
            b" ",
            chan.name().as_bytes(),
            b"\n",
        ],
        err,
    )
}

/// Puts the line of a service that would show something else.
fn put_service<E: Sink>(frame: u32, kind: MisfitKind, service: u8, err: &mut E) -> Put
    ensures bytes { Puts (E.written err.old) (E.written err.new) result
        (misfit_text frame kind (codes "S" ++ decimal service)) }
    ensures cause { PutCause (E.faults err.old) (E.faults err.new) result }
{
    put_pieces(
        &[
            b"misfit at frame ",
            Buffer::new().format(frame).as_bytes(),
            b": ",
            kind.name().as_bytes(),
            b" S",
            Buffer::new().format(service).as_bytes(),
            b"\n",
        ],
        err,
    )
}
