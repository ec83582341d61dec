ghost use Rattle.std.specs.Prelude.{◌≡◌, ◌<◌, ◌≤◌, ◌+◌, ◌++◌, ◌∷◌, [], ℕ, List, None, Some, IfOk, length, take};
ghost use Rattle.cc_receiver.specs.Receivers.{HasReceived};
ghost use Rattle.cdp_packets.specs.Packets.{Frame};
ghost use Rattle.cue_lists.specs.Rules.{IsRuled};
ghost use Rattle.cc_verifier.specs.Differing.{AllSeenWindows};
ghost use Rattle.cc_verifier.specs.Findings.{AreClean, Tried};
ghost use Rattle.line21_screen.specs.Grid.{Grid as GridOf};
ghost use Rattle.words_files.specs.FramesOf.{AreFramesOf};
ghost use Rattle.words_files.specs.Offences.{IsFileUnder};
ghost use Rattle.cc_receiver.specs.CaptionChannel.{caption_channel};

use crate::{ChannelChecks, ServiceChecks};
use cc_base::Refusal;
use cc_receiver::{Ended, Fed, Receiver};
use cue_types::CueList;
use findings::{Finding, Kind45, Which};
use line21_codes::Chan;
use std::alloc::{AllocError, Global};

/// How words were judged.
#[derive(Clone, Copy, PartialEq, Eq)]
pub enum Verdict {
    /// They are a words file with as many frames as the list has, at least, and nothing is found at any.
    Ok,
    /// This is the first finding.
    Differs(Finding),
    /// Nothing is found, and there are only this many frames, fewer than the list has.
    Short(u32),
}

/// The verifier of a words file, whose bytes come in any pieces, against a cue list: it finds the first finding of its frames.
///
/// At each whole frame it tries, in this order, whether the counter goes on from the previous frame's (SMPTE ST 334-2), and whether
/// there are as many triplets as at the packet's rate (CTA-708-E, cc_data()). Then it tries whether the rate is the list's, and
/// whether the held bytes of no service reached 128 (CTA-708-E, Delay). Last it tries whether the screens of CC1 to CC4, where the
/// frame is settled for them, are those that are authored (CTA-608-E; 47 CFR 79.101). So it does with the windows of services 1 to
/// 63, and after the list's last frame too. All memory that it ever takes is taken by `new`.
#[derive(Drop)]
pub struct Verifier {
    receiver: Receiver,
    list: CueList,
    channels: ChannelChecks,
    services: ServiceChecks,
    // The counter of the last whole frame, if there was one.
    counter: Option<u16>,
    finding: Option<Finding>,
}

impl Verifier {
    ghost use Rattle.cc_verifier.specs.Verifiers.{FeedsOn, Finds, FindsOn, GoesOn, HasJudgedFrame, HasVerified, IsLastCounter, IsReadyAt, IsSameBeside, JudgedAs, JudgesFile, KnowsAt, Verifies, finding_of, list_of, verified_frames};

    /// A verifier against a list that keeps the rules, which was fed nothing. The error comes if memory for its receiver and
    /// for what it keeps of four screens isn't found, and the list is dropped then.
    pub fn new(alloc: Global, list: CueList) -> Result<Verifier, AllocError>
        requires { IsRuled list }
        ensures verified { IfOk result (HasVerified []) }
        ensures list { IfOk result (λ verifier. list_of verifier ≡ list) }
        ensures none { IfOk result (λ verifier. finding_of verifier ≡ None) }
    {
        let channels = ChannelChecks::new(alloc, list.cues())?;
        let services = ServiceChecks::new(list.cues());
        Ok(Verifier {
            receiver: Receiver::new(alloc)?,
            list,
            channels,
            services,
            counter: None,
            finding: None,
        })
    }

    /// Reads the next bytes, up to the end of an ancillary packet, as a receiver does, and refuses what it refuses. Nothing was
    /// found before; where the packet ends a frame at which something is found, that is then the finding.
    pub fn feed(&mut self, bytes: &[u8]) -> Result<Fed, Refusal>
        requires few { verified_frames self.now < 4294967295 }
        requires on { FindsOn self.now }
        ensures list { list_of self.new ≡ list_of self.old }
        ensures feeds { (before : List ℕ) → HasVerified before self.old
            → FeedsOn before bytes.now self.old self.new result }
        ensures verified { (before : List ℕ) → HasVerified before self.old
            → Verifies before bytes.now self.new result }
        ensures within { IfOk result (λ fed. fed.used ≤ length bytes.now) }
        ensures moves { 0 < length bytes.now → IfOk result (λ fed. 0 < fed.used) }
    {
        let fed = self.receiver.feed(bytes)?;
        match fed.ended {
            Ended::Caption => {
                self.judge();
                Ok(fed)
            }
            _ => Ok(fed),
        }
    }

    /// Judges the frame that ended last, at which the checks stand.
    fn judge(&mut self)
        requires { (frame : ℕ) × (verified_frames self.now ≡ frame + 1) × IsReadyAt frame self.now }
        ensures receiver { self.new.receiver ≡ self.old.receiver }
        ensures list { list_of self.new ≡ list_of self.old }
        ensures judged { (bytes : List ℕ) (earlier : List Frame) (last : Frame)
            → HasReceived bytes self.old.receiver
            → AreFramesOf caption_channel (earlier ++ last ∷ []) bytes → self.old.finding ≡ None
            → AreClean self.old.list earlier → GoesOn earlier self.old
            → HasJudgedFrame self.old.list earlier last self.new }
    {
        let frame = self.receiver.frames() - 1;
        match self.find(frame) {
            Some(kind) => self.finding = Some(Finding { frame, kind }),
            None => self.advance(frame + 1),
        }
    }

    /// The first finding at the frame that ended last, of this number.
    fn find(&mut self, frame: u32) -> Option<Kind45>
        requires some { 0 < verified_frames self.now }
        requires ready { IsReadyAt frame self.now }
        ensures same { IsSameBeside self.old self.new }
        ensures ready { IsReadyAt frame self.new }
        ensures finds { (bytes : List ℕ) (earlier : List Frame) (last : Frame)
            → HasReceived bytes self.old.receiver
            → AreFramesOf caption_channel (earlier ++ last ∷ []) bytes → frame ≡ length earlier
            → GoesOn earlier self.old
            → Finds self.old.list earlier last self.new result }
    {
        if let Some(kind) = self.find_in_packet() {
            return Some(kind);
        }
        if let Some(service) = self.receiver.filled() {
            return Some(Kind45::BufferFull(service));
        }
        self.find_on_screens(frame)
    }

    /// The first finding of what the packet of the last frame says.
    fn find_in_packet(&self) -> Option<Kind45>
        requires { 0 < verified_frames self.now }
        ensures { (bytes : List ℕ) (earlier : List Frame) (last : Frame)
            → HasReceived bytes self.now.receiver
            → AreFramesOf caption_channel (earlier ++ last ∷ []) bytes
            → IsLastCounter earlier self.now.counter
            → Tried 3 self.now.list earlier last result }
    {
        if let Some(kind) = self.find_jump() {
            return Some(kind);
        }
        let rate = self.receiver.rate();
        let expected = u16::from(rate.triplets());
        let seen = self.receiver.triplet_count();
        if seen != expected {
            return Some(Kind45::WrongCount { expected, seen });
        }
        let expected = self.list.rate();
        if rate != expected {
            return Some(Kind45::WrongRate {
                expected,
                seen: rate,
            });
        }
        None
    }

    /// The finding of a counter that doesn't go on.
    fn find_jump(&self) -> Option<Kind45>
        requires { 0 < verified_frames self.now }
        ensures { (bytes : List ℕ) (earlier : List Frame) (last : Frame)
            → HasReceived bytes self.now.receiver
            → AreFramesOf caption_channel (earlier ++ last ∷ []) bytes
            → IsLastCounter earlier self.now.counter
            → Tried 1 self.now.list earlier last result }
    {
        let seen = self.receiver.counter();
        match self.counter {
            Some(former) => {
                let expected = former.wrapping_add(1);
                if seen != expected {
                    Some(Kind45::CounterJump { expected, seen })
                } else {
                    None
                }
            }
            None => None,
        }
    }

    /// The first channel or service that shows at the last frame something else than it is to show.
    fn find_on_screens(&mut self, frame: u32) -> Option<Kind45>
        requires some { 0 < verified_frames self.now }
        requires ready { IsReadyAt frame self.now }
        ensures same { IsSameBeside self.old self.new }
        ensures ready { IsReadyAt frame self.new }
        ensures finds { (bytes : List ℕ) (earlier : List Frame) (last : Frame)
            → HasReceived bytes self.old.receiver
            → AreFramesOf caption_channel (earlier ++ last ∷ []) bytes → frame ≡ length earlier
            → GoesOn earlier self.old
            → Tried 66 self.old.list earlier last None
            → Finds self.old.list earlier last self.new result }
    {
        let is_idle = self.receiver.is_idle();
        let cues = self.list.cues();
        if let Some(channel) = self.channels.find(&self.receiver, cues, frame, is_idle) {
            return Some(Kind45::GridDiffers(Which::Chan(channel)));
        }
        match self.services.find(&self.receiver, cues, frame) {
            Some(service) => Some(Kind45::GridDiffers(Which::Service(service))),
            None => None,
        }
    }

    /// Goes on after the frame that ended last, to the frame of this number.
    fn advance(&mut self, frame: u32)
        requires some { 0 < verified_frames self.now }
        requires ready { (former : ℕ) × (frame ≡ former + 1) × IsReadyAt former self.now }
        ensures same { IsSameBeside self.old self.new }
        ensures ready { IsReadyAt frame self.new }
        ensures counter { (bytes : List ℕ) (earlier : List Frame) (last : Frame)
            → HasReceived bytes self.old.receiver
            → AreFramesOf caption_channel (earlier ++ last ∷ []) bytes
            → IsLastCounter (earlier ++ last ∷ []) self.new.counter }
        ensures knows { (former : ℕ) (screens : Chan → GridOf) (windows : AllSeenWindows)
            → frame ≡ former + 1 → IsReadyAt former self.old
            → KnowsAt former screens windows self.old → KnowsAt frame screens windows self.new }
    {
        let cues = self.list.cues();
        self.channels.advance(cues, frame);
        self.services.advance(cues, frame);
        self.counter = Some(self.receiver.counter());
    }

    /// The finding, if something was found.
    pub fn finding(&self) -> Option<Finding>
        ensures { result ≡ finding_of self.now }
    {
        self.finding
    }

    /// The number of whole frames.
    pub fn frames(&self) -> u32
        ensures { result ≡ verified_frames self.now }
    {
        self.receiver.frames()
    }

    /// How the words are judged, if they end here. It is the finding, where there is one; else the refusal of words that are
    /// malformed or may not end here, as the receiver's. Else it is that there are too few frames, or Ok.
    pub fn verdict(&self) -> Result<Verdict, Refusal>
        ensures { (bytes : List ℕ) → HasVerified bytes self.now
            → JudgesFile (list_of self.now) bytes result }
    {
        if let Some(finding) = self.finding {
            return Ok(Verdict::Differs(finding));
        }
        self.receiver.finish()?;
        Ok(self.count())
    }

    /// How the frames of a words file at which nothing is found are judged by their number.
    fn count(&self) -> Verdict
        ensures { (bytes : List ℕ) (frames : List Frame) → HasVerified bytes self.now
            → finding_of self.now ≡ None → IsFileUnder caption_channel frames bytes
            → JudgedAs (list_of self.now) bytes result }
    {
        let frames = self.receiver.frames();
        if frames < self.list.frames() {
            Verdict::Short(frames)
        } else {
            Verdict::Ok
        }
    }
}
