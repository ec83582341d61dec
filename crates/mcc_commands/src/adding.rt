ghost use Rattle.std.specs.Prelude.{◌≡◌, ◌≤◌, ◌<◌, ◌^◌, ◌∷◌, ◌++◌, ℕ, List, [], Option, false, length};
ghost use Rattle.std.specs.List.{All};
ghost use Rattle.anc_words.specs.Writing.{packet_bytes};
ghost use Rattle.cc_base.specs.Streams.{PutCause};
ghost use Rattle.cdp_packets.specs.Packets.{Frame, IsCdp};
ghost use Rattle.mcc_files.specs.MccFiles.{TimedPackets};
ghost use Rattle.mcc_files.specs.Readers.{HasWholeBytes, packet_in};
ghost use Rattle.mcc_files.specs.Payloads.{Payload};
ghost use Rattle.mcc_files.specs.PayloadWords.{payload_words};
ghost use Rattle.mcc_words.specs.Makers.{words_left};
ghost use Rattle.mcc_words.specs.MccWords.{carries_captions};
ghost use Rattle.text_output.specs.Gathered.{GathersText, IsGathered, held_of};
ghost use Rattle.words_reading.specs.Judging.{StopCause};
ghost use Rattle.mcc_commands.specs.Importing.{AddsPacket, AreBegunWords, AreFile, Counts, HasBegun, HasEnded, IsMade, SomeEnded, frame_size};
ghost use Rattle.mcc_commands.specs.declared.hearing.Hearer.{Hearer};

use crate::import_stop::MccStop;
use crate::item_words::said;
use crate::made::Made;
use anc_words::{CAPTION_DID, CAPTION_SDID};
use arrayvec::ArrayVec;
use cc_base::{LimitOf, Put, Rate, Sink};
use mcc_files::MccReader;
use mcc_words::{MccWords, MissingFrames};
use text_output::Gathered;
use words_reading::{Stop, WORDS_LIMIT};

/// The most frames of an import: a day at 60 frames a second.
const MOST_FRAMES: u64 = 5_184_000;

/// The number of bytes of a frame without captions.
fn frame_size(rate: Rate) -> u64
    ensures is { result ≡ frame_size rate }
    ensures small { result ≤ 190 }
{
    40 + 6 * u64::from(rate.triplets())
}

impl Made {
    /// No words.
    pub(crate) fn new() -> Made
        ensures { IsMade [] [] result }
    {
        Made {
            words: MccWords::new(),
            frames: 0,
            bytes: 0,
        }
    }

    /// Counts this many frames and bytes more, unless a limit is passed with them.
    fn count(&mut self, frames: u64, bytes: u64) -> Result<(), LimitOf>
        requires frames { frames ≤ 2 ^ 40 }
        requires bytes { bytes ≤ 2 ^ 50 }
        ensures { Counts self.old frames bytes self.new result }
    {
        if self.bytes + bytes > WORDS_LIMIT as u64 {
            return Err(LimitOf::Bytes);
        }
        if self.frames + frames > MOST_FRAMES {
            return Err(LimitOf::Frames);
        }
        self.frames += frames;
        self.bytes += bytes;
        Ok(())
    }

    /// Adds these words, of the packet whose line a reader has read.
    pub(crate) fn add_packet<O: Sink>(
        &mut self,
        reader: &MccReader,
        packet: &[u8],
        text: &mut Gathered,
        out: &mut O,
    ) -> Result<(), Stop<MccStop>>
        requires room { length packet.now ≤ 524 }
        requires words { packet.now ≡ payload_words (packet_in reader.now).1 }
        requires whole { HasWholeBytes reader.now }
        requires ended { SomeEnded reader.now }
        ensures adds { (placed : TimedPackets) (words : List ℕ) (start : Option (List ℕ))
            → IsMade placed words self.old
            → IsGathered start (O.written out.old) (held_of text.old) words
            → AddsPacket placed words (packet_in reader.now) start (O.written out.new)
            (held_of text.new) self.new result }
        ensures file { (placed : TimedPackets) (hearer : Hearer)
            → HasEnded placed reader.now hearer → AreFile (placed ++ packet_in reader.now ∷ []) }
        ensures cause { StopCause (O.faults out.old) (O.faults out.new) result }
    {
        let (did, sdid, user) = said(reader.bytes());
        if did == CAPTION_DID && sdid == CAPTION_SDID {
            self.add_captions(reader.frame(), user, packet, text, out)
        } else {
            self.add_other(packet, text, out)
        }
    }

    /// Adds the words of a packet of captions with these user bytes at a frame of the day, after the frames that are missing before it: as they
    /// came, where its counter isn't raised.
    fn add_captions<O: Sink>(
        &mut self,
        frame: u32,
        user: &[u8],
        packet: &[u8],
        text: &mut Gathered,
        out: &mut O,
    ) -> Result<(), Stop<MccStop>>
        requires few { length user.now ≤ 255 }
        requires bytes { All (λ byte. byte < 256) user.now }
        requires captions { (cdp : Frame) × IsCdp cdp user.now }
        requires words { packet.now ≡ packet_bytes 0x61 0x01 user.now }
        ensures adds { (placed : TimedPackets) (words : List ℕ) (start : Option (List ℕ))
            → IsMade placed words self.old
            → IsGathered start (O.written out.old) (held_of text.old) words
            → AddsPacket placed words
            (frame, record { did = 0x61; sdid = 0x01; user = user.now }) start
            (O.written out.new) (held_of text.new) self.new result }
        ensures cause { StopCause (O.faults out.old) (O.faults out.new) result }
    {
        let Some(missing) = self.words.begin_captions(frame, user) else {
            unreachable!();
        };
        if self.words.raises() {
            return self.add_raised(missing, user, text, out);
        }
        self.add_words(missing, packet, text, out)
    }

    /// Adds the words of the packet of captions with these user bytes that was begun, whose counter is raised, after the frames that are
    /// missing before it.
    #[cold]
    fn add_raised<O: Sink>(
        &mut self,
        missing: MissingFrames,
        user: &[u8],
        text: &mut Gathered,
        out: &mut O,
    ) -> Result<(), Stop<MccStop>>
        requires few { length user.now ≤ 255 }
        requires captions { (cdp : Frame) × IsCdp cdp user.now }
        ensures adds { (placed : TimedPackets) (words : List ℕ) (start : Option (List ℕ)) (frame : ℕ)
            → HasBegun placed words frame user.now missing self.old
            → IsGathered start (O.written out.old) (held_of text.old) words
            → AddsPacket placed words
            (frame, record { did = 0x61; sdid = 0x01; user = user.now }) start
            (O.written out.new) (held_of text.new) self.new result }
        ensures cause { StopCause (O.faults out.old) (O.faults out.new) result }
    {
        let mut words = ArrayVec::new();
        self.words.put_captions(user, &mut words);
        self.add_words(missing, &words, text, out)
    }

    /// Adds the words of the packet of captions that was begun, after the words of the frames that are missing before it.
    fn add_words<O: Sink>(
        &mut self,
        missing: MissingFrames,
        packet: &[u8],
        text: &mut Gathered,
        out: &mut O,
    ) -> Result<(), Stop<MccStop>>
        requires { length packet.now ≤ 524 }
        ensures adds { (placed : TimedPackets) (words : List ℕ) (start : Option (List ℕ)) (frame : ℕ)
            (user : List ℕ) → HasBegun placed words frame user missing self.old
            → AreBegunWords self.old.words user packet.now
            → IsGathered start (O.written out.old) (held_of text.old) words
            → AddsPacket placed words (frame, record { did = 0x61; sdid = 0x01; user = user })
            start (O.written out.new) (held_of text.new) self.new result }
        ensures cause { StopCause (O.faults out.old) (O.faults out.new) result }
    {
        let many = u64::from(missing.left);
        let size = many * frame_size(missing.rate) + packet.len() as u64;
        if let Err(which) = self.count(many + 1, size) {
            return Err(Stop::Own(MccStop::Passes(which)));
        }
        match add_missing(missing, text, out) {
            Put::Done => {}
            Put::Failed => return Err(Stop::WriteFault),
        }
        match text.add(packet, out) {
            Put::Done => Ok(()),
            Put::Failed => Err(Stop::WriteFault),
        }
    }

    /// Adds the words of another packet.
    fn add_other<O: Sink>(
        &mut self,
        packet: &[u8],
        text: &mut Gathered,
        out: &mut O,
    ) -> Result<(), Stop<MccStop>>
        requires { length packet.now ≤ 524 }
        ensures adds { (placed : TimedPackets) (words : List ℕ) (start : Option (List ℕ))
            (frame : ℕ) (payload : Payload) → IsMade placed words self.old
            → IsGathered start (O.written out.old) (held_of text.old) words
            → carries_captions payload ≡ false → packet.now ≡ payload_words payload
            → AddsPacket placed words (frame, payload) start (O.written out.new)
            (held_of text.new) self.new result }
        ensures cause { StopCause (O.faults out.old) (O.faults out.new) result }
    {
        if let Err(which) = self.count(0, packet.len() as u64) {
            return Err(Stop::Own(MccStop::Passes(which)));
        }
        match text.add(packet, out) {
            Put::Done => Ok(()),
            Put::Failed => Err(Stop::WriteFault),
        }
    }
}

/// Adds the words of missing frames, if there are some.
fn add_missing<O: Sink>(missing: MissingFrames, text: &mut Gathered, out: &mut O) -> Put
    ensures adds { (words : List ℕ) (start : Option (List ℕ))
        → IsGathered start (O.written out.old) (held_of text.old) words
        → GathersText start (O.written out.new) (held_of text.new) (words ++ words_left missing)
        result }
    ensures cause { PutCause (O.faults out.old) (O.faults out.new) result }
{
    if missing.left == 0 {
        return Put::Done;
    }
    add_frames(missing, text, out)
}

/// The same, frame by frame.
#[cold]
fn add_frames<O: Sink>(missing: MissingFrames, text: &mut Gathered, out: &mut O) -> Put
    ensures adds { (words : List ℕ) (start : Option (List ℕ))
        → IsGathered start (O.written out.old) (held_of text.old) words
        → GathersText start (O.written out.new) (held_of text.new) (words ++ words_left missing)
        result }
    ensures cause { PutCause (O.faults out.old) (O.faults out.new) result }
{
    let mut left = missing;
    let mut words = ArrayVec::new();
    while left.put_next(&mut words) {
        match text.add(&words, out) {
            Put::Done => words.clear(),
            Put::Failed => return Put::Failed,
        }
    }
    Put::Done
}
