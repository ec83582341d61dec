ghost use Rattle.std.specs.Prelude.{◌≡◌, ◌<◌, [], ◌∷◌, ◌++◌, length, List, OnErr, OnOk};
ghost use Rattle.cue_types.specs.Cues.{IsCueFormed};
ghost use Rattle.cue_types.specs.Shares.{share_room};

use crate::cue::Cue;
use crate::head::Head;
use cc_base::Rate;
use std::alloc::AllocError;
use std::marker::Model;

/// The most frames of a cue list.
pub const MOST_FRAMES: u32 = 1_000_000;

/// The most cues of a cue list.
pub const MOST_CUES: usize = 20_000;

/// The last service that a cue list authors; the first is 1.
pub const LAST_SERVICE: u8 = 6;

/// The part of each frame's packet that a DTVCC service may use.
#[derive(Clone, Copy, PartialEq, Eq)]
pub struct Share {
    /// The service, 1 to 6.
    pub service: u8,
    /// Bytes of each frame, 8 to 31.
    pub bytes: u8,
}

/// The bytes of a frame that service blocks may take at a rate, with their headers: 17 at 59.94 and 60 frames a second, else 35.
pub fn share_room(rate: Rate) -> u32
    ensures { result ≡ share_room rate }
{
    match rate {
        Rate::F5994 | Rate::F60 => 17,
        _ => 35,
    }
}

/// A cue list whose every field is in its range; at most 20,000 cues.
#[derive(Drop)]
pub struct CueList {
    rate: Rate,
    frames: u32,
    shares: Vec<Share>,
    cues: Vec<Cue>,
}

impl Model for CueList {
    ghost use Rattle.cue_types.specs.Listing.{Listing, IsFormed};

    ghost Value = { Listing };

    ghost view = { λ l. record { rate = l.rate; frames = l.frames; shares = l.shares.items; cues = l.cues.items } };

    ghost invariant = { λ l. IsFormed (record { rate = l.rate; frames = l.frames; shares = l.shares.items; cues = l.cues.items }) };
}

impl CueList {
    ghost use Rattle.cue_types.specs.Listing.{IsFormed, most_cues, share_of};
    ghost use Rattle.cue_types.specs.declared.cue.Cue.{Cue};

    /// The list of these parts, which are in their ranges. It keeps no version, and takes no memory.
    pub fn new(head: Head, shares: Vec<Share>, cues: Vec<Cue>) -> CueList
        requires { IsFormed
            (record { rate = head.rate; frames = head.frames; shares = shares.items; cues = cues.items }) }
        ensures { result
            ≡ record { rate = head.rate; frames = head.frames; shares = shares.items; cues = cues.items } }
    {
        CueList {
            rate: head.rate,
            frames: head.frames,
            shares,
            cues,
        }
    }

    /// The frame rate, 29.97, 30, 59.94 or 60 frames a second.
    pub fn rate(&self) -> Rate
        ensures { result ≡ self.now.rate }
    {
        self.rate
    }

    /// The number of frames, 1 to 1,000,000.
    pub fn frames(&self) -> u32
        ensures { result ≡ self.now.frames }
    {
        self.frames
    }

    /// The bytes of each frame that a service may use; None where the list has no share of the service.
    pub fn share(&self, service: u8) -> Option<u8>
        ensures { result ≡ share_of self.now service }
    {
        self.shares
            .iter()
            .find(|share| share.service == service)
            .map(|share| share.bytes)
    }

    /// Adds a cue at the end of a list that has fewer than 20,000. Without memory the list stays as it was.
    pub fn push(&mut self, cue: Cue) -> Result<(), AllocError>
        requires formed { IsCueFormed cue }
        requires few { length self.old.cues < most_cues }
        ensures ok { OnOk result
            (self.new ≡ record self.old { cues = self.old.cues ++ cue ∷ [] }) }
        ensures err { OnErr result (self.new ≡ self.old) }
    {
        self.cues.push(cue)?;
        Ok(())
    }

    /// Takes off the last cue, if there is one.
    pub fn pop(&mut self)
        ensures { (cues : List Cue) (cue : Cue) → self.old.cues ≡ cues ++ cue ∷ []
            → self.new ≡ record self.old { cues = cues } }
    {
        self.cues.pop();
    }

    /// The cues in the order of their records, at most 20,000.
    pub fn cues(&self) -> &[Cue]
        ensures cues { result.now ≡ self.now.cues }
        ensures formed { IsFormed self.now }
    {
        self.cues.as_slice()
    }
}
