ghost use Rattle.std.specs.Prelude.{◌≡◌, ◌≤◌, ◌++◌, All, IfOk, OnOk, length};
ghost use Rattle.cue_lists.specs.Cues.{IsCueFormed};
ghost use Rattle.cue_lists.specs.Listing.{most_cues};
ghost use Rattle.line21_author.specs.CueSlots.{cues_in_slots, timed_in_slots};
ghost use Rattle.lanes.specs.ChannelLane.{field_cue_chunks};
ghost use Rattle.dual_plans.specs.PartsBehind.{part_behind};
ghost use Rattle.dual_fields.specs.ChannelParts.{channel_parts, parts_of};

use cue_lists::line21::is_on;
use cue_lists::{Cadence, Cue};
use dual_fields::Part;
use lanes::FieldChunk;
use line21_author::{Unit, units};
use line21_codes::Chan;
use std::alloc::{AllocError, Global};

/// The units of the cues on a channel, in the order of the cues, each with the first unit of its cue; the times of the cues in slots
/// of the channel's field. `AllocError` where there is no memory for them.
pub fn channel_parts(
    alloc: Global,
    cues: &[Cue],
    channel: Chan,
    cadence: Cadence,
) -> Result<Vec<Part>, AllocError>
    requires formed { All IsCueFormed cues.now }
    requires few { length cues.now ≤ most_cues }
    ensures { IfOk result (λ parts. parts.items
        ≡ channel_parts channel (cues_in_slots cadence cues.now)) }
{
    let mut parts = Vec::new(alloc);
    for (index, cue) in cues.iter().enumerate() {
        if is_on(channel, cue.kind) {
            push_cue(alloc, &mut parts, index as u32 + 1, cue, cadence)?;
        }
    }
    Ok(parts)
}

// Appends the units of the cue of this number.
fn push_cue(
    alloc: Global,
    parts: &mut Vec<Part>,
    number: u32,
    cue: &Cue,
    cadence: Cadence,
) -> Result<(), AllocError>
    requires { IsCueFormed cue.now }
    ensures { OnOk result (parts.new.items
        ≡ parts.old.items ++ parts_of (field_cue_chunks number (timed_in_slots cadence cue.now))) }
{
    let load = cadence.slot_from(cue.load);
    let until = cadence.slot_from(cue.show);
    let mut first = None;
    for unit in units(alloc, cue)?.as_slice() {
        let chunk = FieldChunk {
            unit: *unit,
            load,
            until,
            cue: number,
        };
        let part = part_behind(first, chunk);
        parts.push(part)?;
        first = Some(part.first);
    }
    Ok(())
}

// A unit after the first one of its cue, or that one itself.
fn part_behind(first: Option<Unit>, chunk: FieldChunk) -> Part
    ensures { result ≡ part_behind first chunk }
{
    Part {
        chunk,
        first: first.unwrap_or(chunk.unit),
        later: first.is_some(),
    }
}
