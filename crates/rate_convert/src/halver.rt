ghost use Rattle.std.specs.Prelude.{◌≡◌, ◌<◌, ◌≤◌, ◌+◌, ◌++◌, ◌∷◌, [], ℕ, List, None, IfOk, MatchResult, length};
ghost use Rattle.cc_base.specs.declared.rate.Rate.TheVariants as rate;
ghost use Rattle.cc_receiver.specs.Receivers.{HasReceived, frame_count};
ghost use Rattle.cdp_packets.specs.Packets.{Frame};
ghost use Rattle.findings.specs.First.{IsFirstTried};
ghost use Rattle.rate_convert.specs.Misfits.{Holds, rank};
ghost use Rattle.rate_convert.specs.SortedTriplets.{IsSorted, IsSortedFrame};
ghost use Rattle.services_files.specs.CaptionChannel.{caption_channel};
ghost use Rattle.words_files.specs.FramesOf.{AreFramesOf};

use crate::differing::first_changed;
use crate::halves::Halves;
use crate::sorted::{Sorted, TWENTY};
use arrayvec::ArrayVec;
use cc_base::Rate;
use cc_receiver::{Receiver, Served};
use findings::{Misfit, MisfitKind, Which};
use std::alloc::{AllocError, Global};

/// Turns the frames of a receiver, one after another, into two each at 59.94 frames a second (SMPTE ST 334-1 and ST 334-2). It tells
/// where one can't be converted or something else would be seen (CTA-708-E).
///
/// What is seen of line 21 is always the same, as each field has the same pairs; so it has the services of its own output, and no
/// fields. All memory that it ever takes is taken by `new`.
#[derive(Drop)]
pub struct Halver {
    served: Served,
    misfit: Option<Misfit>,
    words: ArrayVec<u8, 200>,
}

impl Halver {
    ghost use Rattle.rate_convert.specs.Halvers.{HasHalved, Took, halves_words, misfit_of};

    /// Before the first frame. The error comes if memory for its services isn't found.
    pub fn new(alloc: Global) -> Result<Halver, AllocError>
        ensures { IfOk result (HasHalved []) }
    {
        Ok(Halver {
            served: Served::new(alloc)?,
            misfit: None,
            words: ArrayVec::new(),
        })
    }

    /// Takes the last whole frame of a receiver, of at most 2,147,483,647 frames.
    pub fn frame(&mut self, input: &Receiver)
        requires some { 0 < frame_count input.now }
        requires few { frame_count input.now ≤ 2147483647 }
        ensures { (bytes : List ℕ) (earlier : List Frame) (last : Frame)
            → HasReceived bytes input.now → AreFramesOf caption_channel (earlier ++ last ∷ []) bytes
            → HasHalved earlier self.old → Took earlier last self.new }
    {
        let frame = input.frames() - 1;
        match self.halve(input, frame) {
            Ok(()) => self.misfit = None,
            Err(kind) => self.misfit = Some(Misfit { frame, kind }),
        }
    }

    // Takes the last frame of a receiver, which has this number; or says why it has a misfit.
    fn halve(&mut self, input: &Receiver, frame: u32) -> Result<(), MisfitKind>
        requires some { 0 < frame_count input.now }
        requires few { frame_count input.now ≤ 2147483647 }
        requires number { frame + 1 ≡ frame_count input.now }
        ensures { (bytes : List ℕ) (earlier : List Frame) (last : Frame)
            → HasReceived bytes input.now → AreFramesOf caption_channel (earlier ++ last ∷ []) bytes
            → HasHalved earlier self.old
            → MatchResult result (λ done. HasHalved (earlier ++ last ∷ [])
            (record self.new { misfit = None })) (IsFirstTried (Holds earlier last) rank) }
    {
        let sorted = sort_frame(input)?;
        let halves = Halves::of(&sorted);
        self.words = halves.words(frame);
        let touched = halves.serve(&mut self.served);
        match first_changed(input, &self.served, touched) {
            None => Ok(()),
            Some(service) => Err(MisfitKind::Changed(Which::Service(service))),
        }
    }

    /// The misfit of the frame that it took last, if it has one.
    pub fn misfit(&self) -> Option<Misfit>
        ensures { result ≡ misfit_of self.now }
    {
        self.misfit
    }

    /// The bytes of the two ancillary packets that the frame became that it took last, which has no misfit (SMPTE ST 334-1).
    pub fn words(&self) -> ArrayVec<u8, 200>
        ensures { (earlier : List Frame) (last : Frame) → HasHalved (earlier ++ last ∷ []) self.now
            → result.items ≡ halves_words (length earlier) last }
    {
        let mut words = ArrayVec::new();
        if words.try_extend_from_slice(&self.words).is_err() {
            unreachable!();
        }
        words
    }
}

// The triplets of the last frame of a receiver, sorted; or why the frame can't be converted.
fn sort_frame(input: &Receiver) -> Result<Sorted, MisfitKind>
    requires { 0 < frame_count input.now }
    ensures sorted { (bytes : List ℕ) (earlier : List Frame) (last : Frame)
        → HasReceived bytes input.now
        → AreFramesOf caption_channel (earlier ++ last ∷ []) bytes
        → MatchResult result (IsSortedFrame last) (IsFirstTried (Holds earlier last) rank) }
    ensures are { IfOk result IsSorted }
    ensures few { IfOk result (λ sorted. length sorted.channel.items ≤ 18) }
{
    match input.rate() {
        Rate::F2997 => sort_triplets(input),
        rate => Err(MisfitKind::Rate(rate.code())),
    }
}

// The same, where the frame is at 29.97.
fn sort_triplets(input: &Receiver) -> Result<Sorted, MisfitKind>
    requires { 0 < frame_count input.now }
    ensures sorted { (bytes : List ℕ) (earlier : List Frame) (last : Frame)
        → HasReceived bytes input.now
        → AreFramesOf caption_channel (earlier ++ last ∷ []) bytes → last.rate ≡ rate.F2997
        → MatchResult result (IsSortedFrame last) (IsFirstTried (Holds earlier last) rank) }
    ensures are { IfOk result IsSorted }
    ensures few { IfOk result (λ sorted. length sorted.channel.items ≤ 18) }
{
    let received = input.triplets();
    let count = received.len();
    if count != TWENTY {
        return Err(MisfitKind::Count(input.triplet_count()));
    }
    let sorted = Sorted::of(received);
    match sorted.misfit() {
        Some(kind) => Err(kind),
        None => Ok(sorted),
    }
}
