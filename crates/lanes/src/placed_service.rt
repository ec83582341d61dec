ghost use Rattle.std.specs.Prelude.{◌≡◌, ℕ, ◌+◌, ◌^◌, ◌<◌, ◌≤◌, IfOk, IfErr, length};
ghost use Rattle.cc_base.specs.declared.rate.Rate.{Rate};
ghost use Rattle.dtvcc_author.specs.Kept.{AreKept};
ghost use Rattle.lanes.specs.LaneRoom.{AreInCueOrder};
ghost use Rattle.lanes.specs.Placing.{IsEarliest};
ghost use Rattle.lanes.specs.ServiceChunks.{service_chunk_cue};
ghost use Rattle.lanes.specs.ServicePlan.{IsServiceFault, IsServicePlan, lane_bytes};
ghost use Rattle.lanes.specs.ServiceRoom.{caption_lane};
ghost use Rattle.lanes.specs.Batches.{AreBatches, batch_frames};

use crate::PlanFault;
use crate::batch::Batch;
use crate::chunk_list::ChunkList;
use crate::placing::Placing;
use crate::service_cursor::Cursor;
use arrayvec::ArrayVec;
use dtvcc_author::Caption;
use std::alloc::Global;
use std::marker::Model;

/// What a service carries: the units of its cues in file order, and its captions, by whose times its windows are hidden and
/// shown.
#[derive(Drop)]
pub struct ServiceLane {
    /// The service, 1 to 6.
    pub service: u8,
    /// The bytes of each frame that it may use, 8 to 31.
    pub share: u8,
    pub captions: Vec<Caption>,
    pub chunks: ChunkList,
}

impl ServiceLane {
    /// Places each unit in the first frame that its cue, the units before it, the frame's events and the delays allow. The answer
    /// is the lane at frame 0, or the first cue that has no room, or out of memory.
    pub fn place(self, alloc: Global) -> Result<PlacedService, PlanFault>
        requires kept { (rate : Rate) × ((frames : ℕ) × AreKept rate frames self.captions.items) }
        requires least { 8 ≤ self.share }
        requires most { self.share ≤ 31 }
        requires order { AreInCueOrder service_chunk_cue self.chunks }
        ensures planned { IfOk result
            (IsServicePlan self.service self.share self.captions.items self.chunks) }
        ensures fault { IfErr result (IsServiceFault self.share self.captions.items self.chunks) }
    {
        let batches = placed_batches(alloc, &self.chunks, &self.captions, self.share)?;
        Ok(PlacedService {
            service: self.service,
            share: self.share,
            captions: self.captions,
            chunks: self.chunks,
            batches,
            cursor: Cursor::start(),
        })
    }
}

// The batches of the units in their earliest placement, or the first cue that has no room.
fn placed_batches(
    alloc: Global,
    chunks: &ChunkList,
    captions: &[Caption],
    share: u8,
) -> Result<Vec<Batch>, PlanFault>
    requires kept { (rate : Rate) × ((frames : ℕ) × AreKept rate frames captions.now) }
    requires least { 8 ≤ share }
    requires order { AreInCueOrder service_chunk_cue chunks.now }
    ensures frames { IfOk result
        (λ batches. IsEarliest (caption_lane share captions.now) chunks.now
        (batch_frames batches.items)) }
    ensures batches { IfOk result (λ batches. AreBatches chunks.now 0 0 batches.items) }
    ensures fault { IfErr result (IsServiceFault share captions.now chunks.now) }
{
    let (units, cues) = chunks.parts();
    let mut placing = Placing::start(alloc, captions, share);
    for cue in cues {
        if let Err(fault) = placing.place_cue(*cue, units, captions, share) {
            return Err(fault);
        }
    }
    placing.finish()
}

/// A service's lane with its units in their earliest frames, read frame by frame.
#[derive(Drop)]
pub struct PlacedService {
    service: u8,
    share: u8,
    captions: Vec<Caption>,
    chunks: ChunkList,
    batches: Vec<Batch>,
    cursor: Cursor,
}

impl Model for PlacedService {
    ghost use Rattle.std.specs.Prelude.{◌≤◌};
    ghost use Rattle.lanes.specs.ServiceBytes.{IsReadyForBytes};
    ghost use Rattle.lanes.specs.ServicePlan.{IsWithinShare, PlannedService};
    ghost use Rattle.lanes.specs.Batches.{batch_frames};

    ghost Value = { PlannedService };

    ghost view = { λ plan. record {
      service = plan.service;
      share = plan.share;
      captions = plan.captions.items;
      chunks = plan.chunks;
      frames = batch_frames plan.batches.items;
      frame = plan.cursor.frame;
    } };

    ghost invariant = { λ plan.
        IsReadyForBytes plan.captions.items plan.chunks plan.batches.items plan.cursor
        × IsWithinShare plan.share plan.captions.items plan.chunks (batch_frames plan.batches.items) × (plan.share ≤ 31) };
}

impl PlacedService {
    /// The service, 1 to 6.
    pub fn service(&self) -> u8
        ensures { result ≡ self.now.service }
    {
        self.service
    }

    /// The bytes of the next frame, in order from frame 0; none where the service is sent nothing in the frame.
    pub fn next(&mut self) -> ArrayVec<u8, 31>
        requires { self.old.frame + 1 < 2 ^ 32 }
        ensures bytes { result.items ≡ lane_bytes self.old self.old.frame }
        ensures within { length result.items ≤ self.old.share }
        ensures moves { self.new ≡ record self.old { frame = self.old.frame + 1 } }
    {
        self.cursor
            .step(&self.captions, &self.chunks, &self.batches)
    }
}
