ghost use Rattle.std.specs.Prelude.{◌≡◌, All, IfOk};
ghost use Rattle.line21_codes.specs.Reading.{code_of};
ghost use Rattle.line21_codes.specs.Writable.{IsWritable};
ghost use Rattle.line21_codes.specs.Writing.{pair_of_code};
ghost use Rattle.dual_plans.specs.SecondChannel.{second_event, second_events};
ghost use Rattle.dual_fields.specs.Seen.{as_second, second_part, second_parts, second_unit};

use dual_fields::Part;
use lanes::FieldChunk;
use line21_author::{Event, Unit};
use line21_codes::{Code, FieldNumber, Pair, read_pair, write_code};
use std::alloc::{AllocError, Global};

/// The units of a channel's cues with their codes for data channel 2 of the field. `AllocError` where there is no memory for them.
pub fn second_parts(
    alloc: Global,
    in_field: FieldNumber,
    parts: &[Part],
) -> Result<Vec<Part>, AllocError>
    requires units { All (λ part. IsWritable (code_of part.chunk.unit.pair)) parts.now }
    requires firsts { All (λ part. IsWritable (code_of part.first.pair)) parts.now }
    ensures { IfOk result (λ seconds. seconds.items ≡ second_parts in_field parts.now) }
{
    let mut seconds = Vec::new(alloc);
    for part in parts {
        seconds.push(second_part(in_field, *part))?;
    }
    Ok(seconds)
}

/// The events of a channel with their codes for data channel 2 of the field. `AllocError` where there is no memory for them.
pub fn second_events(
    alloc: Global,
    in_field: FieldNumber,
    events: &[Event],
) -> Result<Vec<Event>, AllocError>
    requires { All (λ event. IsWritable (code_of event.pair)) events.now }
    ensures { IfOk result (λ seconds. seconds.items ≡ second_events in_field events.now) }
{
    let mut seconds = Vec::new(alloc);
    for event in events {
        seconds.push(second_event(in_field, *event))?;
    }
    Ok(seconds)
}

fn second_event(in_field: FieldNumber, event: Event) -> Event
    requires { IsWritable (code_of event.pair) }
    ensures { result ≡ second_event in_field event }
{
    Event {
        slot: event.slot,
        pair: second_pair(in_field, event.pair),
    }
}

fn second_part(in_field: FieldNumber, part: Part) -> Part
    requires unit { IsWritable (code_of part.chunk.unit.pair) }
    requires first { IsWritable (code_of part.first.pair) }
    ensures { result ≡ second_part in_field part }
{
    let chunk = FieldChunk {
        unit: second_unit(in_field, part.chunk.unit),
        load: part.chunk.load,
        until: part.chunk.until,
        cue: part.chunk.cue,
    };
    Part {
        chunk,
        first: second_unit(in_field, part.first),
        later: part.later,
    }
}

fn second_unit(in_field: FieldNumber, unit: Unit) -> Unit
    requires { IsWritable (code_of unit.pair) }
    ensures { result ≡ second_unit in_field unit }
{
    Unit {
        pair: second_pair(in_field, unit.pair),
        doubled: unit.doubled,
    }
}

// The pair with which the field writes the code for data channel 2.
fn second_pair(in_field: FieldNumber, pair: Pair) -> Pair
    requires { IsWritable (code_of pair) }
    ensures { result ≡ pair_of_code in_field (as_second (code_of pair)) }
{
    let code = match read_pair(pair) {
        Ok(code) => as_second(code),
        Err(_) => Code::Null,
    };
    match in_field {
        FieldNumber::One => write_code(code, false),
        FieldNumber::Two => write_code(code, true),
    }
}

fn as_second(code: Code) -> Code
    ensures { result ≡ as_second code }
{
    match code {
        Code::Control { control, .. } => Code::Control {
            second: true,
            control,
        },
        other => other,
    }
}
