ghost use Rattle.std.specs.Prelude.{◌≡◌, ◌≤◌, ◌++◌, All, IfOk, OnOk, length};
ghost use Rattle.cue_lists.specs.Cues.{IsCueFormed};
ghost use Rattle.cue_lists.specs.Listing.{most_cues};
ghost use Rattle.line21_author.specs.CueSlots.{cues_in_slots, timed_in_slots};
ghost use Rattle.lanes.specs.ChannelLane.{channel_chunks, field_cue_chunks};

use crate::chunk::FieldChunk;
use cue_lists::Cadence;
use line21_author::line21::is_on;
use line21_author::{Cue, units};
use line21_codes::Chan;
use std::alloc::{AllocError, Global};

/// The units of the cues on a channel, in the order of the cues, their times in slots of the channel's field.
/// `AllocError` where there is no memory for them.
pub fn channel_chunks(
    alloc: Global,
    cues: &[Cue],
    channel: Chan,
    cadence: Cadence,
) -> Result<Vec<FieldChunk>, AllocError>
    requires formed { All IsCueFormed cues.now }
    requires few { length cues.now ≤ most_cues }
    ensures { IfOk result (λ chunks. chunks.items
        ≡ channel_chunks channel (cues_in_slots cadence cues.now)) }
{
    let mut chunks = Vec::new(alloc);
    for (index, cue) in cues.iter().enumerate() {
        if is_on(channel, cue.kind) {
            push_cue(alloc, &mut chunks, index as u32 + 1, cue, cadence)?;
        }
    }
    Ok(chunks)
}

/// Appends the units of the cue of this number.
fn push_cue(
    alloc: Global,
    chunks: &mut Vec<FieldChunk>,
    number: u32,
    cue: &Cue,
    cadence: Cadence,
) -> Result<(), AllocError>
    requires { IsCueFormed cue.now }
    ensures { OnOk result (chunks.new.items
        ≡ chunks.old.items ++ field_cue_chunks number (timed_in_slots cadence cue.now)) }
{
    let load = cadence.slot_from(cue.load);
    let until = cadence.slot_from(cue.show);
    for unit in units(alloc, cue)?.as_slice() {
        chunks.push(FieldChunk {
            unit: *unit,
            load,
            until,
            cue: number,
        })?;
    }
    Ok(())
}
