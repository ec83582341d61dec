ghost use Rattle.std.specs.Prelude.{◌≡◌, ◌+◌, ◌-◌, ◌^◌, ◌<◌, ◌≤◌, [], if◌then◌else◌, ℕ, List, IfErr, IfOk, Err};
ghost use Rattle.cue_lists.specs.Cues.{IsCueFormed};
ghost use Rattle.cue_lists.specs.Listing.{Listing};
ghost use Rattle.cue_lists.specs.Rules.{IsRuled};
ghost use Rattle.frame_carrier.specs.Columns.{Columns};
ghost use Rattle.frame_carrier.specs.Frames.{GivesFrom, PlanAnswer, frames_left};
ghost use Rattle.live_frames.specs.LeftOut.{Judges};

use crate::live_fault::LiveFault;
use arrayvec::ArrayVec;
use cue_lists::list::MOST_CUES;
use cue_lists::{Cue, CueList, check};
use frame_carrier::{Carrier, Frames, Plan, PlanFault, plan};
use std::alloc::Global;

/// The frames of a cue list on their way out, while further cues are taken (CTA-608-E, CTA-708-E).
///
/// After any calls the words that were given are the first words of the list of all cues that were taken.
#[derive(Drop)]
pub struct Live {
    list: CueList,
    plan: Plan,
    carrier: Carrier,
    frame: u32,
    ghost counted: { frame + frames_left plan < 2 ^ 32 },
}

impl Live {
    ghost use Rattle.live_frames.specs.Lives.{Adds, GivesFrame, IsLive};

    /// A builder at frame 0 of a list that keeps the rules, mostly one without a cue. Else the first cue of the list that has no
    /// placement, or Memory.
    pub fn open(alloc: Global, list: CueList) -> Result<Live, PlanFault>
        requires { IsRuled list }
        ensures opened { IfOk result (IsLive [] list) }
        ensures refused { IfErr result (λ fault. PlanAnswer list (Err fault)) }
    {
        let rate = list.rate();
        match plan(alloc, &list) {
            Ok(plan) => Ok(Live {
                list,
                plan,
                carrier: Carrier::new(rate),
                frame: 0,
            }),
            Err(fault) => Err(fault),
        }
    }

    /// Takes a cue after all others, or leaves it out and says why: Cues, Rule, Late, NoRoom, the first that holds. Memory may come
    /// in place of each but Cues. If the cue is left out, the builder stays exactly as it was. The list is judged and planned
    /// anew: this takes time in proportion to its cues, their runs and the frames that were given.
    pub fn add(&mut self, alloc: Global, cue: Cue) -> Result<(), LiveFault>
        requires { IsCueFormed cue }
        ensures adds { (words : List ℕ) (list : Listing) → IsLive words list self.old
            → Adds words self.old.frame list cue result self.new }
        ensures left { IfErr result (λ _. self.new ≡ self.old) }
        ensures frame { self.new.frame ≡ self.old.frame }
    {
        let count = self.list.cues().len();
        if count >= MOST_CUES {
            return Err(LiveFault::Cues);
        }
        let load = cue.load;
        if let Err(error) = self.list.push(cue) {
            return Err(LiveFault::Memory(error));
        }
        match judge(alloc, &self.list, load, self.frame) {
            Ok(plan) => {
                self.plan = skipped(plan, self.frame);
                Ok(())
            }
            Err(fault) => {
                self.list.pop();
                Err(fault)
            }
        }
    }

    /// Writes the ancillary packet of the next frame into an empty `words`, and says whether there was one (SMPTE ST 291-1,
    /// ST 334-1 and ST 334-2). After the last frame nothing is written. It takes no memory.
    pub fn next(&mut self, words: &mut ArrayVec<u8, 524>) -> bool
        requires { words.old.items ≡ [] }
        ensures gives { (given : List ℕ) (list : Listing) → IsLive given list self.old
            → GivesFrame given list result words.new.items self.new }
        ensures counts { self.new.frame ≡ (if result then self.old.frame + 1 else self.old.frame) }
    {
        if self.frame == self.list.frames() {
            return false;
        }
        match self.plan.next() {
            Some(frame) => {
                self.carrier.put_words(&frame, words);
                self.frame += 1;
                true
            }
            None => false,
        }
    }

    /// The number of the next frame, 0 at first.
    pub fn next_frame(&self) -> u32
        ensures { result ≡ self.now.frame }
    {
        self.frame
    }
}

/// The plan of a list whose last cue has this LOAD, or why the cue is left out, if `frame` is the next.
fn judge(alloc: Global, list: &CueList, load: u32, frame: u32) -> Result<Plan, LiveFault>
    ensures { Judges list.now load frame result }
{
    if let Err(fault) = check(list) {
        return Err(LiveFault::Rule(fault));
    }
    if load < frame {
        return Err(LiveFault::Late(frame));
    }
    match plan(alloc, list) {
        Ok(plan) => Ok(plan),
        Err(PlanFault::NoRoom(cue)) => Err(LiveFault::NoRoom(cue)),
        Err(PlanFault::Memory(error)) => Err(LiveFault::Memory(error)),
    }
}

/// A plan after this many of its frames, or after all that it has.
fn skipped(mut plan: Plan, frames: u32) -> Plan
    ensures gives { (columns : Columns) → GivesFrom columns 0 plan → frames ≤ frames_left plan
        → GivesFrom columns frames result }
    ensures left { frames_left result ≡ frames_left plan - frames }
{
    for _ in 0..frames {
        plan.next();
    }
    plan
}
