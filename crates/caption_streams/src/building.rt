ghost use Rattle.std.specs.Prelude.{◌≡◌, ◌≤◌, ◌<◌, ◌+◌, ◌⊎◌, [], ℕ, List, All, IfErr, IfOk, IsSome, None, Option, length};
ghost use Rattle.cc_data.specs.Triplets.{all_written};
ghost use Rattle.command_base.specs.declared.status.Status.TheVariants as status;
ghost use Rattle.cue_list_commands.specs.Accepted.{IsRefused};
ghost use Rattle.cue_list_commands.specs.Reads.{IsProgrammeOf};
ghost use Rattle.cue_lists.specs.Listing.{Listing};
ghost use Rattle.cue_list_commands.specs.Carrying.{IsAt, packets_before};
ghost use Rattle.cue_list_commands.specs.Planned.{Placement, columns_of};
ghost use Rattle.caption_streams.specs.Builders.{Begins, GivesNext, IsBuilding, IsCarriedNext, IsOver, cc_data_of, frame_in, frames_to_come, packet_of};

use crate::slice_source::SliceSource;
use arrayvec::ArrayVec;
use cc_data::{Triplet, write_triplet};
use command_base::Status;
use cue_list_commands::{Carrier, FrameBytes, Frames, Plan, Programme, read_programme};
use std::alloc::Global;

/// In which form a builder gives its frames.
#[derive(Clone, Copy, PartialEq, Eq)]
pub enum FrameForm {
    /// The words of its ancillary packet (SMPTE ST 334-1).
    Words,
    /// Its triplets of cc_data, three bytes each, as many as the rate's frames have (CTA-708-E, cc_data()).
    CcData,
}

/// What came of asking a builder for its next frame.
#[derive(Clone, Copy, PartialEq, Eq)]
pub enum NextFrame {
    /// This many bytes of it stand in the output.
    Given(usize),
    /// It has this many bytes, and the output has fewer.
    NoRoom(usize),
    /// There is no further frame.
    Over,
}

/// The frames of an accepted cue list on their way to ancillary packets, one after another (SMPTE ST 291-1, ST 334-1 and ST 334-2).
///
/// All memory that it ever takes is taken by `read`.
#[derive(Drop)]
pub struct Building {
    pub(crate) plan: Plan,
    pub(crate) carrier: Carrier,
    // The next frame; None after the last one.
    pub(crate) ahead: Option<FrameBytes>,
}

impl Building {
    /// Reads a cue list and judges it, its room too: a builder at its frame 0, or the status with which it is refused, or Memory.
    pub fn read(alloc: Global, list: &[u8]) -> Result<Building, Status>
        ensures begins { IfOk result (Begins list.now) }
        ensures refused { IfErr result
            (λ answer. (answer ≡ status.Memory) ⊎ IsRefused list.now answer) }
    {
        let programme = read_programme(alloc, &mut SliceSource::new(list))?;
        Ok(Building::new(programme))
    }

    /// A builder at frame 0 of a programme.
    pub fn new(programme: Programme<Plan>) -> Building
        ensures { (bytes : List ℕ) → IsProgrammeOf bytes programme → Begins bytes result }
    {
        let mut plan = programme.frames;
        let ahead = plan.next();
        Building {
            plan,
            carrier: Carrier::new(programme.rate),
            ahead,
        }
    }

    /// Writes the next frame to the front of `out`. Where that has too little room, nothing is written, and the frame is still the next; so
    /// after the last frame.
    pub fn next(&mut self, form: FrameForm, out: &mut [u8]) -> NextFrame
        ensures next { (list : Listing) (placed : Placement) (frame : ℕ)
            → IsBuilding list placed frame self.old
            → GivesNext list placed frame (frame_in form list placed frame)
            out.old out.new self.old self.new result }
        ensures over { frames_to_come self.old ≡ 0 → IsOver out.old out.new self.old self.new result }
    {
        let mut bytes = ArrayVec::new();
        match self.carry(form, &mut bytes) {
            Some(carrier) => self.give(&bytes, carrier, out),
            None => NextFrame::Over,
        }
    }

    // Writes the next frame, if there is one, into empty `bytes`: the carrier after it.
    fn carry(&self, form: FrameForm, bytes: &mut ArrayVec<u8, 524>) -> Option<Carrier>
        requires { bytes.old.items ≡ [] }
        ensures next { (list : Listing) (placed : Placement) (frame : ℕ)
            → IsBuilding list placed frame self.now
            → IsCarriedNext list placed frame (frame_in form list placed frame)
            self.now bytes.new.items result }
        ensures over { frames_to_come self.now ≡ 0 → result ≡ None }
    {
        match form {
            FrameForm::Words => self.carry_words(bytes),
            FrameForm::CcData => self.carry_cc_data(bytes),
        }
    }

    // Writes the ancillary packet of the next frame, if there is one, into an empty `words`: the carrier after it.
    fn carry_words(&self, words: &mut ArrayVec<u8, 524>) -> Option<Carrier>
        requires { words.old.items ≡ [] }
        ensures next { (list : Listing) (placed : Placement) (frame : ℕ)
            → IsBuilding list placed frame self.now
            → IsCarriedNext list placed frame (packet_of list placed frame)
            self.now words.new.items result }
        ensures over { frames_to_come self.now ≡ 0 → result ≡ None }
    {
        let Some(frame) = &self.ahead else {
            return None;
        };
        let mut carrier = self.carrier;
        carrier.put_words(frame, words);
        Some(carrier)
    }

    // The same of its triplets of cc_data.
    fn carry_cc_data(&self, bytes: &mut ArrayVec<u8, 524>) -> Option<Carrier>
        requires { bytes.old.items ≡ [] }
        ensures next { (list : Listing) (placed : Placement) (frame : ℕ)
            → IsBuilding list placed frame self.now
            → IsCarriedNext list placed frame (cc_data_of list placed frame)
            self.now bytes.new.items result }
        ensures over { frames_to_come self.now ≡ 0 → result ≡ None }
    {
        let Some(frame) = &self.ahead else {
            return None;
        };
        let mut carrier = self.carrier;
        let triplets = carrier.triplets(frame);
        write_all(&triplets, bytes);
        Some(carrier)
    }

    // Gives the bytes of the next frame, after which the carrier is this one.
    fn give(&mut self, bytes: &[u8], carrier: Carrier, out: &mut [u8]) -> NextFrame
        ensures { (list : Listing) (placed : Placement) (frame : ℕ) (packet : List ℕ)
            → IsBuilding list placed frame self.old
            → IsCarriedNext list placed frame packet self.old bytes.now (Some carrier)
            → GivesNext list placed frame packet out.old out.new self.old self.new result }
    {
        if out.len() < bytes.len() {
            return NextFrame::NoRoom(bytes.len());
        }
        out[..bytes.len()].copy_from_slice(bytes);
        self.pass(carrier);
        NextFrame::Given(bytes.len())
    }

    // Passes to the frame after the next one.
    fn pass(&mut self, carrier: Carrier)
        ensures { (list : Listing) (placed : Placement) (frame : ℕ)
            → IsBuilding list placed frame self.old → IsSome self.old.ahead
            → IsAt list.rate (frame + 1) (packets_before (columns_of list placed) (frame + 1)) carrier
            → IsBuilding list placed (frame + 1) self.new }
    {
        self.carrier = carrier;
        self.ahead = self.plan.next();
    }
}

// Writes triplets, three bytes each, into empty `bytes`.
fn write_all(triplets: &[Triplet], bytes: &mut ArrayVec<u8, 524>)
    requires few { length triplets.now ≤ 31 }
    requires kinds { All (λ t. t.kind < 4) triplets.now }
    requires empty { bytes.old.items ≡ [] }
    ensures { bytes.new.items ≡ all_written triplets.now }
{
    for triplet in triplets {
        if bytes
            .try_extend_from_slice(&write_triplet(*triplet))
            .is_err()
        {
            unreachable!();
        }
    }
}
