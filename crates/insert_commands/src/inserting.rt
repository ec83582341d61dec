ghost use Rattle.std.specs.Prelude.{◌≡◌, ◌<◌, ◌≤◌, ◌++◌, ◌∷◌, [], ℕ, List, IfOk, MatchBool, length};
ghost use Rattle.words_reading.specs.Receivers.{HasReceived};
ghost use Rattle.cdp_packets.specs.Packets.{Frame};
ghost use Rattle.cdp_packets.specs.Sections.{AreSections};
ghost use Rattle.words_files.specs.FramesOf.{AreFramesOf};
ghost use Rattle.services_files.specs.CaptionChannel.{caption_channel};
ghost use Rattle.cue_list_commands.specs.Frames.{GivesFrom, frames_left};
ghost use Rattle.cue_list_commands.specs.Framing.{Framing, HasFraming};
ghost use Rattle.insert_commands.specs.InsertVerdict.{HaltsInserting, SaysInserted};
ghost use Rattle.insert_commands.specs.InsertSteps.{HasJudged, HasLastFrame, HasReadWords, Replaces, halt_status};
ghost use Rattle.insert_commands.specs.ListCaptions.{GivesCaptions};

use crate::captions::Captions;
use anc_words::{CAPTION_DID, CAPTION_SDID, write_packet};
use arrayvec::ArrayVec;
use cc_base::{LimitOf, Put, Refusal, Sink};
use cdp_packets::WholePacket;
use command_base::Status;
use cue_list_commands::{Plan, Programme};
use findings::{Finding, Kind45};
use packet_inserter::insert;
use std::alloc::{AllocError, Global};
use text_output::Gathered;
use words_reading::{Ended, Judge, Packets, Reason, Receiver, Stop};

/// Why an insertion stops at a frame.
#[derive(Clone, Copy, PartialEq, Eq)]
pub enum Halt {
    /// It has another rate than the list.
    Found(Finding),
    /// With the list's captions its distribution packet would have more than 255 bytes.
    Packet,
}

impl Reason for Halt {
    ghost status_of = { halt_status };

    fn status(self) -> Status {
        match self {
            Halt::Found(finding) => Status::Differs(finding),
            Halt::Packet => Status::Limit(LimitOf::Packet),
        }
    }
}

/// An insertion on its way: the words, packet by packet, and the captions of the frames to come. All memory that it takes is taken by
/// `new` and by the programme.
#[derive(Drop)]
pub struct Inserting {
    packets: Packets,
    captions: Captions<Plan>,
}

impl Inserting {
    /// An insertion of a programme's captions that judged nothing.
    pub(crate) fn new(alloc: Global, programme: Programme<Plan>) -> Result<Inserting, AllocError>
        ensures read { IfOk result (λ inserting. HasReadWords [] inserting) }
        ensures judged { (list : Framing) → HasFraming frames_left GivesFrom list programme
            → IfOk result (λ inserting. HasJudged list [] [] inserting) }
    {
        Ok(Inserting {
            packets: Packets::new(alloc)?,
            captions: Captions::new(programme),
        })
    }

    /// Whether the programme has no frame from the next one on.
    pub(crate) fn is_over(&self) -> bool
        ensures { (list : Framing) (bytes text : List ℕ) (had : HasJudged list bytes text self.now)
            → MatchBool result (list.count ≤ length had.says.frames)
            (length had.says.frames < list.count) }
    {
        self.captions.is_over()
    }

    /// The number of frames that ended.
    pub(crate) fn frames(&self) -> u32
        ensures { (list : Framing) (bytes text : List ℕ) (had : HasJudged list bytes text self.now)
            → result ≡ length had.says.frames }
    {
        self.packets.frames()
    }
}

impl Judge for Inserting {
    type Reason = Halt;

    ghost Given = { Framing };

    ghost HasRead = { λ bytes inserting. HasReadWords bytes inserting };

    ghost HasJudged = { λ list bytes text inserting. HasJudged list bytes text inserting };

    ghost Says = { λ list. SaysInserted list };

    ghost Halts = { λ list why. HaltsInserting list why };

    fn step<O: Sink>(
        &mut self,
        bytes: &[u8],
        text: &mut Gathered,
        out: &mut O,
    ) -> Result<usize, Stop<Halt>> {
        let frame = self.packets.frames();
        let fed = match self.packets.feed(bytes) {
            Ok(fed) => fed,
            Err(refusal) => return Err(Stop::Refused(refusal)),
        };
        match fed.ended {
            Ended::No => Ok(fed.used),
            Ended::Foreign => match text.add(self.packets.bytes(), out) {
                Put::Done => {
                    self.packets.begin();
                    Ok(fed.used)
                }
                Put::Failed => Err(Stop::WriteFault),
            },
            Ended::Caption => {
                let mut words = ArrayVec::new();
                match replace(
                    &self.packets.receiver,
                    &mut self.captions,
                    frame,
                    &mut words,
                ) {
                    Ok(()) => match text.add(&words, out) {
                        Put::Done => {
                            self.packets.begin();
                            Ok(fed.used)
                        }
                        Put::Failed => Err(Stop::WriteFault),
                    },
                    Err(halt) => Err(Stop::Own(halt)),
                }
            }
        }
    }

    /// Says whether the words may end here, be their frames enough or too few.
    fn end(&self) -> Result<(), Refusal> {
        self.packets.receiver.finish()
    }

    ghost says = { λ list bytes text inserting had. (had.says, had.unoffending) };
}

/// Writes what stands for the packet of the frame of this number, which a receiver received last, into an empty `words`.
fn replace(
    receiver: &Receiver,
    captions: &mut Captions<Plan>,
    frame: u32,
    words: &mut ArrayVec<u8, 524>,
) -> Result<(), Halt>
    requires frame { HasLastFrame receiver.now }
    requires empty { words.old.items ≡ [] }
    ensures { (list : Framing) (bytes : List ℕ) (earlier : List Frame) (last : Frame)
        → HasReceived bytes receiver.now
        → AreFramesOf caption_channel (earlier ++ last ∷ []) bytes → AreSections last.sections
        → frame ≡ length earlier
        → GivesCaptions list (length earlier) captions.old
        → Replaces list earlier last captions.new words.new.items result }
{
    let (expected, seen) = (captions.rate(), receiver.rate());
    if seen.code() != expected.code() {
        let kind = Kind45::WrongRate { expected, seen };
        return Err(Halt::Found(Finding { frame, kind }));
    }
    let packet = WholePacket {
        rate: seen,
        flags: receiver.flags(),
        counter: receiver.counter(),
        sections: receiver.sections(),
    };
    let triplets = captions.next(frame);
    let mut new = ArrayVec::new();
    match insert(&packet, &triplets, &mut new) {
        Ok(()) => {}
        Err(_) => return Err(Halt::Packet),
    }
    write_packet(CAPTION_DID, CAPTION_SDID, &new, words);
    Ok(())
}
