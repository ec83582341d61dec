ghost use Rattle.std.specs.Prelude.{◌≡◌, ◌≤◌, ◌++◌, All, IfOk, OnOk, length, map};
ghost use Rattle.cue_lists.specs.Cues.{IsCueFormed};
ghost use Rattle.cue_lists.specs.Listing.{most_cues};
ghost use Rattle.dtvcc_author.specs.CueUnits.{window_cue_units};
ghost use Rattle.lanes.specs.CueChunks.{AreCounted, chunks_of};
ghost use Rattle.lanes.specs.ServiceChunks.{chunk_of, service_chunks};

use crate::chunk_list::ChunkList;
use crate::cue_load::CueLoad;
use cc_base::Rate;
use dtvcc_author::{Caption, Cue, PackedUnits, caption_of, push_units};
use std::alloc::{AllocError, Global};

/// The units of the cues of a service, in the order of the cues. `AllocError` where there is no memory for them.
pub fn service_chunks(
    alloc: Global,
    rate: Rate,
    cues: &[Cue],
    service: u8,
) -> Result<ChunkList, AllocError>
    requires formed { All IsCueFormed cues.now }
    requires few { length cues.now ≤ most_cues }
    ensures { IfOk result (λ chunks. chunks ≡ service_chunks rate service cues.now) }
{
    let mut units = PackedUnits::new(alloc);
    let mut loads = Vec::new(alloc);
    for (index, cue) in cues.iter().enumerate() {
        if let Some(caption) = caption_of(rate, cue, service) {
            push_cue(&mut units, &mut loads, index as u32 + 1, caption, cue)?;
        }
    }
    Ok(ChunkList::new(units, loads))
}

// Appends the units of the caption of this number, and what it asks of their places.
fn push_cue(
    units: &mut PackedUnits,
    loads: &mut Vec<CueLoad>,
    number: u32,
    caption: Caption,
    cue: &Cue,
) -> Result<(), AllocError>
    requires formed { IsCueFormed cue.now }
    requires counted { AreCounted loads.old.items units.old }
    ensures counted { OnOk result (AreCounted loads.new.items units.new) }
    ensures chunks { OnOk result (chunks_of loads.new.items units.new
        ≡ chunks_of loads.old.items units.old
        ++ map (chunk_of number caption) (window_cue_units cue.now)) }
{
    let before = units.len();
    push_units(units, cue)?;
    loads.push(CueLoad {
        load: caption.load,
        until: caption.starts,
        cue: number,
        count: units.len() - before,
    })?;
    Ok(())
}
