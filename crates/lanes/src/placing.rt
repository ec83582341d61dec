ghost use Rattle.std.specs.Prelude.{◌≡◌, ℕ, ◌+◌, ◌^◌, ◌<◌, ◌≤◌, ◌++◌, [], ◌∷◌, List, IfErr, IfOk, OnOk, length, map};
ghost use Rattle.std.specs.List.{concat};
ghost use Rattle.cc_base.specs.declared.rate.Rate.{Rate};
ghost use Rattle.dtvcc_author.specs.Kept.{AreKept};
ghost use Rattle.dtvcc_author.specs.Packed.{bytes_before};
ghost use Rattle.dtvcc_author.specs.declared.caption.Caption.{Caption};
ghost use Rattle.lanes.specs.LaneRoom.{AreInCueOrder};
ghost use Rattle.lanes.specs.ServiceChunks.{service_chunk_cue};
ghost use Rattle.lanes.specs.ServicePlan.{IsServiceFault};
ghost use Rattle.lanes.specs.Chunks.{ServiceChunk};

use crate::PlanFault;
use crate::batch::Batch;
use crate::cue_load::CueLoad;
use crate::service_front::Front;
use dtvcc_author::{Caption, PackedUnits};
use std::alloc::{AllocError, Global};

/// How far the units of a service have been placed: their batches, of which the last one may still grow, and what is free
/// after them.
#[derive(Drop)]
pub(crate) struct Placing {
    batches: Vec<Batch>,
    last: Batch,
    front: Front,
}

impl Placing {
    ghost use Rattle.lanes.specs.ServicePlacing.{AreOfCue, FillsFrame, IsOfCue, IsPlacing, MayStand, batches_of};

    /// No unit is placed, with the captions of the service and its share of each frame.
    pub fn start(alloc: Global, captions: &[Caption], share: u8) -> Placing
        requires kept { (rate : Rate) × ((frames : ℕ) × AreKept rate frames captions.now) }
        requires least { 8 ≤ share }
        ensures placing { (chunks : List ServiceChunk)
            → IsPlacing share captions.now chunks result }
        ensures units { result.last.units ≡ 0 }
        ensures bytes { result.last.bytes ≡ 0 }
    {
        Placing {
            batches: Vec::new(alloc),
            last: Batch {
                frame: 0,
                units: 0,
                bytes: 0,
            },
            front: Front::start(captions, share),
        }
    }

    /// Places the next units, which are a cue's.
    pub fn place_cue(
        &mut self,
        cue: CueLoad,
        units: &PackedUnits,
        captions: &[Caption],
        share: u8,
    ) -> Result<(), PlanFault>
        requires kept { (rate : Rate) × ((frames : ℕ) × AreKept rate frames captions.now) }
        requires least { 8 ≤ share }
        requires within { self.old.last.units + cue.count ≤ length units.now }
        requires bytes { self.old.last.bytes ≡ bytes_before self.old.last.units units.now }
        ensures placed { (chunks : List ServiceChunk)
            → AreOfCue cue units.now chunks self.old.last.units
            → IsPlacing share captions.now chunks self.old
            → OnOk result (IsPlacing share captions.now chunks self.new) }
        ensures units { OnOk result (self.new.last.units ≡ self.old.last.units + cue.count) }
        ensures bytes { OnOk result
            (self.new.last.bytes ≡ bytes_before self.new.last.units units.now) }
        ensures fault { (chunks : List ServiceChunk)
            → AreOfCue cue units.now chunks self.old.last.units
            → AreInCueOrder service_chunk_cue chunks
            → IsPlacing share captions.now chunks self.old
            → IfErr result (IsServiceFault share captions.now chunks) }
    {
        let lengths = units.lengths();
        let end = self.last.units + cue.count;
        while self.last.units < end {
            if let Err(fault) = self.place(&cue, units, captions, share) {
                return Err(fault);
            }
            self.fill(lengths, end);
        }
        Ok(())
    }

    // Places the next unit, which is one of a cue.
    fn place(
        &mut self,
        cue: &CueLoad,
        units: &PackedUnits,
        captions: &[Caption],
        share: u8,
    ) -> Result<(), PlanFault>
        requires kept { (rate : Rate) × ((frames : ℕ) × AreKept rate frames captions.now) }
        requires least { 8 ≤ share }
        requires within { self.old.last.units < length units.now }
        requires bytes { self.old.last.bytes ≡ bytes_before self.old.last.units units.now }
        ensures placed { (chunks : List ServiceChunk)
            → IsOfCue cue.now units.now chunks self.old.last.units
            → IsPlacing share captions.now chunks self.old
            → OnOk result (IsPlacing share captions.now chunks self.new) }
        ensures stands { (chunks : List ServiceChunk)
            → IsOfCue cue.now units.now chunks self.old.last.units
            → IsPlacing share captions.now chunks self.old
            → OnOk result (MayStand cue.now self.new.front) }
        ensures units { OnOk result (self.new.last.units ≡ self.old.last.units + 1) }
        ensures bytes { OnOk result
            (self.new.last.bytes ≡ bytes_before self.new.last.units units.now) }
        ensures fault { (chunks : List ServiceChunk)
            → IsOfCue cue.now units.now chunks self.old.last.units
            → AreInCueOrder service_chunk_cue chunks
            → IsPlacing share captions.now chunks self.old
            → IfErr result (IsServiceFault share captions.now chunks) }
    {
        let unit = units.unit(self.last.units, self.last.bytes);
        let Some(frame) = self.front.place(cue, unit, captions, share) else {
            return Err(PlanFault::NoRoom(cue.cue));
        };
        let batch = Batch {
            frame,
            units: self.last.units + 1,
            bytes: self.last.bytes + unit.len(),
        };
        match self.hold(batch) {
            Ok(()) => Ok(()),
            Err(error) => Err(PlanFault::Memory(error)),
        }
    }

    // Places more units in the frame of the last one, up to this many in all, as far as the frame and its delay have the bytes.
    fn fill(&mut self, lengths: &[u8], end: usize)
        requires few { end ≤ length lengths.now }
        requires room { (units : List (List ℕ))
            × ((lengths.now ≡ map length units) × (length (concat units) < 2 ^ 64)
            × (self.old.last.bytes ≡ bytes_before self.old.last.units units)) }
        requires within { self.old.last.units ≤ end }
        ensures placed { (share : ℕ) (captions : List Caption) (chunks : List ServiceChunk)
            (units : List (List ℕ)) (cue : CueLoad)
            → lengths.now ≡ map length units → FillsFrame captions cue units chunks self.old end
            → IsPlacing share captions chunks self.old
            → IsPlacing share captions chunks self.new }
        ensures units { self.old.last.units ≤ self.new.last.units }
        ensures within { self.new.last.units ≤ end }
        ensures bytes { (units : List (List ℕ)) → lengths.now ≡ map length units
            → self.old.last.bytes ≡ bytes_before self.old.last.units units
            → self.new.last.bytes ≡ bytes_before self.new.last.units units }
    {
        let most = self.front.most();
        let mut size = 0u8;
        let mut index = self.last.units;
        while index < end && lengths[index] <= most - size {
            size += lengths[index];
            index += 1;
        }
        let _taken = self.front.take(size);
        self.last.units = index;
        self.last.bytes += usize::from(size);
    }

    // Makes this the last batch: in place of the last one, where that is in its frame, or else after it.
    fn hold(&mut self, batch: Batch) -> Result<(), AllocError>
        ensures grown { batch.frame ≡ self.old.last.frame
            → OnOk result (batches_of self.new ≡ self.old.batches.items ++ batch ∷ []) }
        ensures more { (batch.frame ≡ self.old.last.frame → ⊥)
            → OnOk result (batches_of self.new ≡ batches_of self.old ++ batch ∷ []) }
        ensures last { OnOk result (self.new.last ≡ batch) }
        ensures front { self.new.front ≡ self.old.front }
    {
        if batch.frame != self.last.frame {
            self.batches.push(self.last)?;
        }
        self.last = batch;
        Ok(())
    }

    /// The batches of the units, when all are placed.
    pub fn finish(self) -> Result<Vec<Batch>, PlanFault>
        ensures batches { IfOk result (λ batches. batches.items ≡ batches_of self) }
        ensures fault { (captions : List Caption) (chunks : List ServiceChunk) (share : ℕ)
            → IfErr result (IsServiceFault share captions chunks) }
    {
        let mut batches = self.batches;
        match batches.push(self.last) {
            Ok(()) => Ok(batches),
            Err(error) => Err(PlanFault::Memory(error.into())),
        }
    }
}
