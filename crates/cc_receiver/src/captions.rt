ghost use Rattle.std.specs.Prelude.{◌≡◌, ◌≤◌, ◌<◌, ◌%◌, ◌++◌, false, List, [], ◌∷◌, None, IfOk, IsTrue, length, reverse, sum as total};
ghost use Rattle.cc_base.specs.Feeding.{hand};
ghost use Rattle.cdp_packets.specs.declared.parts.CdpPart.{CdpPart as Part};
ghost use Rattle.cdp_packets.specs.PacketParts.{packet_parts};
ghost use Rattle.cdp_packets.specs.Packets.{Frame as FrameOf, IsCdp};
ghost use Rattle.cdp_packets.specs.Sections.{AreSections};
ghost use Rattle.cdp_packets.specs.WholePackets.{SaysPacket};
ghost use Rattle.line21_codes.specs.declared.channels.FieldNumber.{FieldNumber};
ghost use Rattle.line21_codes.specs.declared.pairs.Pair.{Pair as PairOf};
ghost use Rattle.line21_screen.specs.Objects.{Leads};
ghost use Rattle.services_files.specs.Catching.{Caught, caught_after, nothing_caught, packet_begun, packet_ended, taken, verdict_behind};
ghost use Rattle.services_files.specs.Services.{services_say};
ghost use Rattle.cc_receiver.specs.Channels.{HasTried, frames_parts};
ghost use Rattle.cc_receiver.specs.Gatherers.{HasGathered};
ghost use Rattle.cc_receiver.specs.Hearing.{heard};
ghost use Rattle.cc_receiver.specs.Says.{AreOfSections};

use crate::channel::Channel;
use crate::frame::Frame;
use crate::services::Served;
use crate::triplets::Triplets;
use anc_words::{CAPTION_DID, CAPTION_SDID, WordPart};
use cc_base::{Step, Upward, Why};
use cdp_packets::{CdpPart, CdpReader, WholePacket, read_summed_packet};
use line21_codes::{FieldNumber, Pair};
use line21_screen::Field;
use std::alloc::{AllocError, Global};
use std::mem;

/// Takes the parts of ancillary packets. It reads the distribution packet of each one of captions, and applies its pairs of
/// line 21 when the packet ends, after a good checksum word.
#[derive(Drop)]
pub(crate) struct Captions {
    /// What reads the packet of captions that is open.
    pub(crate) open: Option<CdpReader>,
    /// What the open packet says so far.
    pub(crate) gathered: Frame,
    /// What judges the triplets of the open packet, after the whole frames'.
    pub(crate) judging: Channel,
    /// What the last whole frame says.
    pub(crate) last: Frame,
    /// What took the triplets of the whole frames.
    pub(crate) channel: Channel,
    /// Field 1 of line 21.
    pub(crate) first: Field,
    /// Field 2 of line 21.
    pub(crate) second: Field,
    /// The services of DTVCC.
    pub(crate) served: Served,
    /// The number of whole frames, modulo 2^32.
    pub(crate) frames: u32,
    /// Why a part was refused, if one was.
    pub(crate) refused: Option<Why>,
}

// Applies pairs to a field, in order.
#[inline(always)]
fn apply_all(field: &mut Field, pairs: &[Pair])
    ensures { (in_field : FieldNumber) (before : List PairOf) → Leads in_field before field.old
        → Leads in_field (reverse pairs.now ++ before) field.new }
{
    for pair in pairs {
        field.apply(*pair);
    }
}

// A frame gathers the next part of a distribution packet, and the part is judged: why it is refused, if it is.
fn take_part(frame: &mut Frame, judging: &mut Channel, part: CdpPart) -> Option<Why>
    ensures why { (before : List Part) → HasTried before judging.old
        → result ≡ services_say before part }
    ensures gathered { (parts : List Part) → HasGathered parts frame.old
        → HasGathered (parts ++ part ∷ []) frame.new }
    ensures tried { (before : List Part) → HasTried before judging.old → result ≡ None
        → HasTried (before ++ part ∷ []) judging.new }
{
    frame.gather(part);
    judging.judge(part)
}

// Takes the parts of a step in the same way, up to one that is refused.
fn take_step(frame: &mut Frame, judging: &mut Channel, step: Step<CdpPart>) -> Option<Why>
    ensures why { (frames : List (List Part)) (parts : List Part)
        → HasTried (frames_parts frames ++ parts) judging.old
        → result ≡ (hand (verdict_behind services_say frames) parts step).why }
    ensures gathered { (frames : List (List Part)) (parts : List Part)
        → HasTried (frames_parts frames ++ parts) judging.old → HasGathered parts frame.old
        → HasGathered (parts ++ (hand
        (verdict_behind services_say frames) parts step).parts) frame.new }
    ensures tried { (frames : List (List Part)) (parts : List Part)
        → HasTried (frames_parts frames ++ parts) judging.old → result ≡ None
        → HasTried (frames_parts frames
        ++ (parts ++ (hand (verdict_behind services_say frames) parts step).parts)) judging.new }
{
    match step {
        Step::Nothing => None,
        Step::One(part) => take_part(frame, judging, part),
        Step::Two(first, second) => match take_part(frame, judging, first) {
            None => take_part(frame, judging, second),
            Some(why) => Some(why),
        },
        Step::Refuse(why) => Some(why),
    }
}

impl Captions {
    ghost use Rattle.cc_receiver.specs.declared.channel.Channel.{Channel as ChannelOf};
    ghost use Rattle.cc_receiver.specs.Catchers.{HasCaught, Keeps, captions_field, with_frame};
    ghost use Rattle.cc_receiver.specs.declared.frame.Frame.{Frame as Said};

    /// It was handed nothing. All memory that it ever takes is taken here.
    pub(crate) fn new(alloc: Global) -> Result<Captions, AllocError>
        ensures { IfOk result (Keeps nothing_caught) }
    {
        Ok(Captions {
            open: None,
            gathered: Frame::new(),
            judging: Channel::new(),
            last: Frame::new(),
            channel: Channel::new(),
            first: Field::new(alloc, false)?,
            second: Field::new(alloc, true)?,
            served: Served::new(alloc)?,
            frames: 0,
            refused: None,
        })
    }

    /// A field of line 21.
    pub(crate) fn field(&self, in_field: FieldNumber) -> &Field
        ensures heard { (caught : Caught) → Keeps caught self.now
            → Leads in_field (heard in_field caught.frames) result.now }
        ensures field { result.now ≡ captions_field in_field self.now }
    {
        match in_field {
            FieldNumber::One => &self.first,
            FieldNumber::Two => &self.second,
        }
    }

    // Begins a packet with these identifiers and this count.
    fn begin(&mut self, did: u8, sdid: u8, count: u8)
        ensures { (caught : Caught) → Keeps caught self.old → self.old.refused ≡ None
            → Keeps (packet_begun did sdid count caught) self.new }
    {
        self.open = None;
        if did != CAPTION_DID || sdid != CAPTION_SDID {
            return;
        }
        match CdpReader::new(count) {
            Ok(reader) => {
                self.gathered.clear();
                self.judging = self.channel;
                self.open = Some(reader);
            }
            Err(why) => self.refused = Some(why),
        }
    }

    // Takes the next byte of the open packet, if that is one of captions.
    fn byte(&mut self, byte: u8)
        ensures { (caught : Caught) → Keeps caught self.old → self.old.refused ≡ None
            → Keeps (taken services_say byte caught) self.new }
    {
        if let Some(reader) = &mut self.open {
            let step = reader.step(byte);
            self.refused = take_step(&mut self.gathered, &mut self.judging, step);
        }
    }

    // Ends the open packet. One of captions is a frame, whose pairs act now.
    fn end(&mut self)
        ensures { (caught : Caught) → Keeps caught self.old → self.old.refused ≡ None
            → Keeps (packet_ended caught) self.new }
    {
        if self.open.is_some() {
            mem::swap(&mut self.gathered, &mut self.last);
            self.channel = self.judging;
            self.act();
        }
    }

    // A frame ended, `last` is what it says, and `channel` took its triplets: its pairs and its bytes of services act now, and no packet
    // is open.
    fn act(&mut self)
        ensures { (caught : Caught) (parts : List Part) (gathered last : Said)
            (judging channel : ChannelOf)
            → Keeps caught
            (record self.old { gathered = gathered; judging = judging; last = last; channel = channel })
            → HasGathered parts self.old.last
            → HasTried (frames_parts (parts ∷ caught.frames)) self.old.channel
            → Keeps (with_frame parts caught) self.new }
    {
        self.open = None;
        apply_all(&mut self.first, self.last.pairs_one.as_slice());
        apply_all(&mut self.second, self.last.pairs_two.as_slice());
        self.served
            .frame(self.last.rate, self.last.triplets.front());
        self.frames = self.frames.wrapping_add(1);
    }

    /// Takes the bytes that a whole packet of captions carries, and their sum modulo 256. Says whether they are a distribution
    /// packet of which nothing is refused: it is a frame then, whose pairs act now, and no packet is open; else nothing has changed.
    pub(crate) fn whole(&mut self, bytes: &[u8], sum: u8) -> bool
        requires { sum ≡ total bytes.now % 256 }
        ensures frame { (caught : Caught) → Keeps caught self.old → IsTrue result
            → (frame : FrameOf) × IsCdp frame bytes.now
            × Keeps (with_frame (packet_parts frame) caught) self.new }
        ensures none { result ≡ false → self.new ≡ self.old }
    {
        let Some(packet) = read_summed_packet(bytes, sum) else {
            return false;
        };
        if !self.last.is_of(packet.sections) {
            return self.anew(packet);
        }
        self.again(packet)
    }

    // Takes a whole packet whose sections are the last frame's: what that says of them is not read again. Says whether
    // nothing is refused; else nothing has changed.
    fn again(&mut self, packet: WholePacket<'_>) -> bool
        requires few { length packet.sections.now ≤ 244 }
        requires sections { self.old.last.sections.items ≡ packet.sections.now }
        requires are { let last = self.old.last in AreOfSections packet.sections.now last.triplets last.pairs_one.items last.pairs_two.items }
        ensures frame { (caught : Caught) (frame : FrameOf) → Keeps caught self.old
            → AreSections frame.sections → SaysPacket packet.entry frame
            → IsTrue result → Keeps (with_frame (packet_parts frame) caught) self.new }
        ensures none { result ≡ false → self.new ≡ self.old }
    {
        let mut judging = self.channel;
        if !judging.takes(self.last.triplets.front()) {
            return false;
        }
        self.channel = judging;
        self.last.head(packet);
        self.act();
        true
    }

    // Takes a whole packet, and reads its sections. Says whether nothing is refused; else nothing has changed.
    fn anew(&mut self, packet: WholePacket<'_>) -> bool
        requires few { length packet.sections.now ≤ 244 }
        ensures frame { (caught : Caught) (frame : FrameOf) → Keeps caught self.old
            → AreSections frame.sections → SaysPacket packet.entry frame
            → IsTrue result → Keeps (with_frame (packet_parts frame) caught) self.new }
        ensures none { result ≡ false → self.new ≡ self.old }
    {
        let mut triplets = Triplets::new();
        triplets.read(packet.sections);
        let mut judging = self.channel;
        if !judging.takes(triplets.front()) {
            return false;
        }
        self.channel = judging;
        self.last.fill(packet, &triplets);
        self.act();
        true
    }

    // Takes the next part, unless one was refused.
    fn go_on(&mut self, part: WordPart)
        ensures { (caught : Caught) → Keeps caught self.old
            → Keeps (caught_after services_say caught part) self.new }
    {
        if self.refused.is_some() {
            return;
        }
        match part {
            WordPart::Start { did, sdid, count } => self.begin(did, sdid, count),
            WordPart::User(word) => self.byte((word % 256) as u8),
            WordPart::End => self.end(),
        }
    }
}

impl Upward<WordPart> for Captions {
    ghost use Rattle.cc_receiver.specs.Catchers.{HasCaught};
    ghost use Rattle.services_files.specs.Catching.{caption_verdict};
    ghost use Rattle.services_files.specs.Services.{services_say};

    ghost Took = { λ parts captions. HasCaught parts captions };

    ghost verdict = { caption_verdict services_say };

    fn part(&mut self, part: WordPart) -> Result<(), Why> {
        self.go_on(part);
        match self.refused {
            Some(why) => Err(why),
            None => Ok(()),
        }
    }
}
