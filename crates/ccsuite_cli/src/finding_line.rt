ghost use Rattle.std.specs.Prelude.{◌≡◌, [], ◌∷◌, codes, decimal};
ghost use Rattle.cc_base.specs.Streams.{PutCause, Puts};
ghost use Rattle.findings.specs.declared.finding.Kind45.TheVariants.{GridDiffers};
ghost use Rattle.line21_codes.specs.Channels.{channel_name};
ghost use Rattle.ccsuite_cli.specs.StatusLine.{expected_seen, finding_line, found_line};

use cc_base::{Put, Sink, Why, put_pieces};
use findings::{Kind45, Which};
use itoa::Buffer;
use line21_codes::Chan;

/// Puts the line of what was found at a frame.
pub fn put_finding<E: Sink>(frame: u32, kind: Kind45, err: &mut E) -> Put
    ensures bytes { Puts (E.written err.old) (E.written err.new) result (finding_line frame kind) }
    ensures cause { PutCause (E.faults err.old) (E.faults err.new) result }
{
    match kind {
        Kind45::CounterJump { expected, seen } => {
            put_seen(frame, Why::CounterJump, expected, seen, err)
        }
        Kind45::WrongCount { expected, seen } => put_seen(
            frame,
            Why::WrongCount,
            expected,
            seen,
            err,
        ),
        Kind45::WrongRate { expected, seen } => {
            put_seen(
                frame,
                Why::WrongRate,
                u16::from(expected.code()),
                u16::from(seen.code()),
                err,
            )
        }
        Kind45::BufferFull(service) => put_service(frame, Why::BufferFull, service, err),
        Kind45::GridDiffers(which) => put_grid(frame, which, err),
        Kind45::TwoPairs(seen) => put_seen(frame, Why::TwoPairs, 1, seen, err),
        Kind45::EightBits => put_plain(frame, Why::EightBits, err),
    }
}

/// Puts the line of a finding of which there is nothing more to say.
fn put_plain<E: Sink>(frame: u32, why: Why, err: &mut E) -> Put
    ensures bytes { Puts (E.written err.old) (E.written err.new) result (found_line frame why []) }
    ensures cause { PutCause (E.faults err.old) (E.faults err.new) result }
{
    put_pieces(
        &[
            b"differs at frame ",
            Buffer::new().format(frame).as_bytes(),
            b": ",
            why.name().as_bytes(),
            b"\n",
        ],
        err,
    )
}

/// Puts the line of a grid that differs.
fn put_grid<E: Sink>(frame: u32, which: Which, err: &mut E) -> Put
    ensures bytes { Puts (E.written err.old) (E.written err.new) result
        (finding_line frame (GridDiffers which)) }
    ensures cause { PutCause (E.faults err.old) (E.faults err.new) result }
{
    match which {
        Which::Chan(chan) => put_channel(frame, Why::GridDiffers, chan, err),
        Which::Service(service) => put_service(frame, Why::GridDiffers, service, err),
    }
}

/// Puts the line of a finding with what is expected and what was seen.
fn put_seen<E: Sink>(frame: u32, why: Why, expected: u16, seen: u16, err: &mut E) -> Put
    ensures bytes { Puts (E.written err.old) (E.written err.new) result
        (found_line frame why (expected_seen expected seen)) }
    ensures cause { PutCause (E.faults err.old) (E.faults err.new) result }
{
    put_pieces(
        &[
            b"differs at frame ",
            Buffer::new().format(frame).as_bytes(),
            b": ",
            why.name().as_bytes(),
            b" expected ",
            Buffer::new().format(expected).as_bytes(),
            b" seen ",
            Buffer::new().format(seen).as_bytes(),
            b"\n",
        ],
        err,
    )
}

/// Puts the line of a finding of a service.
fn put_service<E: Sink>(frame: u32, why: Why, service: u8, err: &mut E) -> Put
    ensures bytes { Puts (E.written err.old) (E.written err.new) result
        (found_line frame why (codes " S" ∷ decimal service ∷ [])) }
    ensures cause { PutCause (E.faults err.old) (E.faults err.new) result }
{
    put_pieces(
        &[
            b"differs at frame ",
            Buffer::new().format(frame).as_bytes(),
            b": ",
            why.name().as_bytes(),
            b" S",
            Buffer::new().format(service).as_bytes(),
            b"\n",
        ],
        err,
    )
}

/// Puts the line of a finding of a channel.
fn put_channel<E: Sink>(frame: u32, why: Why, chan: Chan, err: &mut E) -> Put
    ensures bytes { Puts (E.written err.old) (E.written err.new) result
        (found_line frame why (codes " " ∷ channel_name chan ∷ [])) }
    ensures cause { PutCause (E.faults err.old) (E.faults err.new) result }
{
    put_pieces(
        &[
            b"differs at frame ",
            Buffer::new().format(frame).as_bytes(),
            b": ",
            why.name().as_bytes(),
            b" ",
            chan.name().as_bytes(),
            b"\n",
        ],
        err,
    )
}
