ghost use Rattle.std.specs.Prelude.{◌≡◌};
ghost use Rattle.std.specs.List.{flat_map};
ghost use Rattle.lanes.specs.CueChunks.{AreCounted, chunk_bytes, chunks_of};

use crate::cue_load::CueLoad;
use dtvcc_author::PackedUnits;
use std::marker::Model;

/// The units of a service in order, each seen with what its cue asks of its place; that is kept once a cue.
#[derive(Drop)]
pub struct ChunkList {
    units: PackedUnits,
    cues: Vec<CueLoad>,
}

impl Model for ChunkList {
    ghost use Rattle.std.specs.Prelude.{List};
    ghost use Rattle.lanes.specs.CueChunks.{AreCounted, chunks_of};
    ghost use Rattle.lanes.specs.Chunks.{ServiceChunk};

    ghost Value = { List ServiceChunk };

    ghost view = { λ list. chunks_of list.cues.items list.units };

    ghost invariant = { λ list. AreCounted list.cues.items list.units };
}

impl ChunkList {
    /// The units of these cues.
    pub(crate) fn new(units: PackedUnits, cues: Vec<CueLoad>) -> ChunkList
        requires { AreCounted cues.items units }
        ensures { result ≡ chunks_of cues.items units }
    {
        ChunkList { units, cues }
    }

    /// The units, and the cues that have them.
    pub(crate) fn parts(&self) -> (&PackedUnits, &[CueLoad])
        ensures chunks { chunks_of result.1.now result.0.now ≡ self.now }
        ensures counted { AreCounted result.1.now result.0.now }
    {
        (&self.units, self.cues.as_slice())
    }

    /// The bytes of all units, one unit after the other.
    pub(crate) fn bytes(&self) -> &[u8]
        ensures { result.now ≡ flat_map chunk_bytes self.now }
    {
        self.units.bytes()
    }
}
