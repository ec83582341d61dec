ghost use Rattle.std.specs.Prelude.{◌≡◌, ◌≤◌, ◌+◌, ◌++◌, ℕ, List, IfOk, length};
ghost use Rattle.cc_base.specs.declared.rate.Rate.{Rate as OfRate};
ghost use Rattle.cc_receiver.specs.Receivers.{HasReceived, frame_count};
ghost use Rattle.cue_list_commands.specs.Columns.{Columns};
ghost use Rattle.cue_list_commands.specs.Frames.{GivesFrom, frames_left};
ghost use Rattle.load_commands.specs.Receiving.{AreAllWhole, AreWhole, HasReceivedColumns, IsSendable, MayTake, MayTakeFrame};

use arrayvec::ArrayVec;
use cc_base::Rate;
use cc_receiver::Receiver;
use cue_list_commands::{Carrier, FrameBytes, Frames, Plan, Programme};
use grid_print::Shown;
use std::alloc::{AllocError, Global};

/// A programme on its way into a receiver, frame by frame.
#[derive(Drop)]
pub(crate) struct Reception {
    carrier: Carrier,
    receiver: Receiver,
    shown: Shown,
    // The bytes fed so far.
    bytes: u32,
    // The frames so far at which something else is shown than before.
    changes: u32,
}

impl Reception {
    /// A receiver that was fed nothing, of a programme of this rate. All memory that it takes is taken here.
    fn new(alloc: Global, rate: Rate) -> Result<Reception, AllocError>
        ensures { (columns : Columns) → IfOk result (HasReceivedColumns rate columns 0) }
    {
        Ok(Reception {
            carrier: Carrier::new(rate),
            receiver: Receiver::new(alloc)?,
            shown: Shown::new(alloc)?,
            bytes: 0,
            changes: 0,
        })
    }

    /// Carries the next frame, and feeds its words.
    fn take(&mut self, frame: &FrameBytes)
        requires { MayTakeFrame self.now frame.now }
        ensures { (rate : OfRate) (columns : Columns) (count : ℕ)
            → HasReceivedColumns rate columns count self.old → frame.now ≡ columns count
            → AreWhole rate columns (count + 1)
            → HasReceivedColumns rate columns (count + 1) self.new }
    {
        let mut words = ArrayVec::new();
        self.carrier.put_words(frame, &mut words);
        feed_all(&mut self.receiver, &words);
        self.bytes += words.len() as u32;
        if self.shown.pass(&self.receiver) {
            self.changes += 1;
        }
    }

    /// The bytes of words that were fed.
    pub(crate) fn bytes(&self) -> u32
        ensures { result ≡ self.now.bytes }
    {
        self.bytes
    }

    /// The frames at which something else was shown than before.
    pub(crate) fn changes(&self) -> u32
        ensures { result ≡ self.now.changes }
    {
        self.changes
    }
}

/// Carries all frames of a programme, and feeds their words to a receiver.
pub(crate) fn receive(alloc: Global, programme: Programme<Plan>) -> Result<Reception, AllocError>
    requires { IsSendable programme }
    ensures { (columns : Columns) → GivesFrom columns 0 programme.frames
        → AreAllWhole programme.rate columns (frames_left programme.frames)
        → IfOk result (HasReceivedColumns programme.rate columns (frames_left programme.frames)) }
{
    let mut reception = Reception::new(alloc, programme.rate)?;
    let mut plan = programme.frames;
    while let Some(frame) = plan.next() {
        reception.take(&frame);
    }
    Ok(reception)
}

/// Feeds words of which none offends after those that were fed.
fn feed_all(receiver: &mut Receiver, words: &[u8])
    requires { MayTake receiver.now words.now }
    ensures received { (before : List ℕ) → HasReceived before receiver.old
        → HasReceived (before ++ words.now) receiver.new }
    ensures counted { frame_count receiver.new ≤ frame_count receiver.old + length words.now }
{
    let mut at = 0;
    while at < words.len() {
        let Ok(fed) = receiver.feed(&words[at..]) else {
            unreachable!();
        };
        at += fed.used;
    }
}
