ghost use Rattle.std.specs.Prelude.{◌≡◌, ℕ, ◌+◌, ◌-◌, ◌≤◌, ◌<◌, ◌++◌, ◌∷◌, [], List, Option, Some, IfSome, IfNone, length, true, ◌&&◌, nat_le, option_map};
ghost use Rattle.std.specs.Bool.{OnFalse, OnTrue};
ghost use Rattle.cc_base.specs.declared.rate.Rate.{Rate};
ghost use Rattle.dtvcc_author.specs.FrameEvents.{delay_end, event_bytes};
ghost use Rattle.dtvcc_author.specs.Kept.{AreKept};
ghost use Rattle.dtvcc_author.specs.Latest.{IsLatestAt};
ghost use Rattle.lanes.specs.FirstFit.{IsFirst};
ghost use Rattle.lanes.specs.CueChunks.{chunk_in};
ghost use Rattle.lanes.specs.Chunks.{ServiceChunk};
ghost use Rattle.lanes.specs.ServiceRoom.{IsFirstBehind, IsFront, behind_taking, budget_in, caption_lane, takes};

use crate::Budget;
use crate::cue_load::CueLoad;
use dtvcc_author::{Caption, Delay, Latest};

/// How far units of a service have been placed: the frame that the next one is tried in, and the bytes that the frame has left
/// for units. With them is what is left of the delay that is on in it.
#[derive(Clone, Copy)]
pub(crate) struct Front {
    frame: u32,
    room: u8,
    budget: Option<Budget>,
    latest: Latest,
}

impl Front {
    /// The front where no unit is placed, with the captions of the service and its share of each frame.
    pub fn start(captions: &[Caption], share: u8) -> Front
        requires kept { (rate : Rate) × ((frames : ℕ) × AreKept rate frames captions.now) }
        requires least { 8 ≤ share }
        ensures front { IsFront share captions.now [] result }
        ensures first { result.frame ≡ 0 }
    {
        let mut front = Front {
            frame: 0,
            room: 0,
            budget: None,
            latest: Latest::start(),
        };
        front.open(captions, share);
        front
    }

    /// Places a unit of a cue in the first frame that is allowed after the units before, and stays at it. `None` where no frame
    /// is allowed; the front is of no use then.
    pub fn place(
        &mut self,
        cue: &CueLoad,
        unit: &[u8],
        captions: &[Caption],
        share: u8,
    ) -> Option<u32>
        requires kept { (rate : Rate) × ((frames : ℕ) × AreKept rate frames captions.now) }
        requires least { 8 ≤ share }
        requires small { length unit.now ≤ 7 }
        ensures some { IfSome result
            (λ frame. (before : List (ServiceChunk × ℕ))
            → IsFront share captions.now before self.old
            → IsFirstBehind before self.old.frame
            → IsFirst (caption_lane share captions.now before (chunk_in cue.now unit.now)) frame) }
        ensures front { IfSome result
            (λ frame. (before : List (ServiceChunk × ℕ))
            → IsFront share captions.now before self.old
            → IsFront share captions.now
            (before ++ (chunk_in cue.now unit.now, frame) ∷ []) self.new) }
        ensures at { IfSome result (λ frame. self.new.frame ≡ frame) }
        ensures none { IfNone result
            ((before : List (ServiceChunk × ℕ)) → IsFront share captions.now before self.old
            → IsFirstBehind before self.old.frame → (frame : ℕ)
            → caption_lane share captions.now before (chunk_in cue.now unit.now) frame → ⊥) }
    {
        let until = cue.until;
        while self.frame < until {
            if self.admit(cue, unit) {
                return Some(self.frame);
            }
            self.frame += 1;
            self.latest.pass_to(captions, self.frame);
            self.open(captions, share);
        }
        None
    }

    // Opens the front's frame: what its events leave for units, and the delay that starts there or goes on.
    fn open(&mut self, captions: &[Caption], share: u8)
        requires kept { (rate : Rate) × ((frames : ℕ) × AreKept rate frames captions.now) }
        requires least { 8 ≤ share }
        ensures frame { self.new.frame ≡ self.old.frame }
        ensures latest { self.new.latest ≡ self.old.latest }
        ensures room { IsLatestAt captions.now self.old.frame self.old.latest
            → self.new.room + length (event_bytes self.old.frame captions.now) ≡ share }
        ensures budget { IsLatestAt captions.now self.old.frame self.old.latest
            → self.new.budget ≡ budget_in self.old.budget
            (delay_end captions.now self.old.frame) self.old.frame }
    {
        let events = self.latest.events(self.frame);
        self.room = share - events.bytes().len() as u8;
        self.budget = budget_in(self.budget, events.delay, self.frame);
    }

    // Takes the bytes of a unit that is loaded by the front's frame, where this and its delay have them; else the answer is false.
    fn admit(&mut self, cue: &CueLoad, unit: &[u8]) -> bool
        requires { length unit.now ≤ 7 }
        ensures admits { result ≡ (nat_le cue.now.load self.old.frame
            && takes self.old (length unit.now)) }
        ensures taken { OnTrue result (self.new ≡ behind_taking self.old (length unit.now)) }
        ensures kept { OnFalse result (self.new ≡ self.old) }
    {
        cue.load <= self.frame && self.take(unit.len() as u8)
    }

    /// The most bytes that the front's frame and its delay have left.
    pub fn most(&self) -> u8
        ensures { (size : ℕ) → takes self.now size ≡ nat_le size result }
    {
        match &self.budget {
            Some(budget) => self.room.min(budget.left),
            None => self.room,
        }
    }

    /// Takes this many bytes of the frame and of its delay, where both have them; else the answer is false.
    pub fn take(&mut self, size: u8) -> bool
        ensures fits { result ≡ takes self.old size }
        ensures taken { OnTrue result (self.new ≡ behind_taking self.old size) }
        ensures kept { OnFalse result (self.new ≡ self.old) }
    {
        if size > self.room {
            return false;
        }
        if let Some(budget) = &mut self.budget
            && !budget.spend(size)
        {
            return false;
        }
        self.room -= size;
        true
    }
}

// The budget in a frame: a new one where a delay starts there, else the previous delay's, until its end.
fn budget_in(former: Option<Budget>, delay: Option<Delay>, frame: u32) -> Option<Budget>
    ensures { result ≡ budget_in former (option_map (λ delay. delay.ends) delay) frame }
{
    match delay {
        Some(delay) => Some(Budget::begin(frame, delay.ends)),
        None => former.filter(|budget| frame < budget.end),
    }
}
