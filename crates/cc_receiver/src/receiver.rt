ghost use Rattle.std.specs.Prelude.{◌≡◌, ◌≢◌, false, ◌<◌, ◌≤◌, ◌+◌, ◌++◌, ℕ, List, [], ◌∷◌, None, Some, IfErr, IfOk, IfSome, IsNone, IsOk, IsSome, IsTrue, MatchOption, length, take};
ghost use Rattle.std.specs.List.{concat};
ghost use Rattle.std.specs.Result.{result_err};
ghost use Rattle.cc_base.specs.Syntax.{Reads, open_behind};
ghost use Rattle.cc_base.specs.declared.refusal.Refusal.{Refusal as Refused};
ghost use Rattle.anc_words.specs.Ending.{bytes_to_end};
ghost use Rattle.anc_words.specs.Packets.{AncillaryPacket};
ghost use Rattle.anc_words.specs.Reading.{anc_syntax};
ghost use Rattle.anc_words.specs.WordsFiles.{IsWordsFile};
ghost use Rattle.cdp_packets.specs.Packets.{Frame as FrameOf};
ghost use Rattle.cdp_packets.specs.PacketTriplets.{packet_triplets};
ghost use Rattle.services_files.specs.Catching.{refusal_of};
ghost use Rattle.services_files.specs.Services.{services_say};
ghost use Rattle.services_files.specs.CaptionChannel.{caption_channel};
ghost use Rattle.services_files.specs.FramesOf.{AreFramesOf};
ghost use Rattle.services_files.specs.Offences.{IsFileUnder, IsMalformed};
ghost use Rattle.services_files.specs.Received.{field_pairs, received_grids};
ghost use Rattle.cc_receiver.specs.declared.receiver.Ended.TheVariants as ended;
ghost use Rattle.cc_receiver.specs.Feeds.{Feeds};
ghost use Rattle.cc_receiver.specs.Counting.{HasFront};
ghost use Rattle.cc_receiver.specs.Receiving.{EndsBy};
ghost use Rattle.cc_receiver.specs.Idle.{is_idle};
ghost use Rattle.line21_codes.specs.declared.channels.Chan.{Chan as Channel};
ghost use Rattle.line21_codes.specs.declared.channels.FieldNumber.TheVariants.{One, Two};

use crate::captions::Captions;
use anc_words::{CaptionPacket, WordReader};
use cc_base::{Rate, Refusal, Resume};
use cc_data::Triplet;
use dtvcc_windows::Window;
use line21_codes::{Cell, Chan, DataChannel, Pair};
use line21_screen::{Memory, Mode};
use std::alloc::{AllocError, Global};

/// Whether an ancillary packet ended, and which.
#[derive(Clone, Copy, PartialEq, Eq)]
pub enum Ended {
    /// No packet ended.
    No,
    /// A packet ended that isn't one of captions.
    Foreign,
    /// A packet of captions ended, and with it a frame (SMPTE ST 334-1).
    Caption,
}

/// How far the bytes of one call were read.
#[derive(Clone, Copy, PartialEq, Eq)]
pub struct Fed {
    /// The number of bytes that were read.
    pub used: usize,
    /// Whether they end with an ancillary packet.
    pub ended: Ended,
}

/// The receiver of a words file, whose bytes come in any pieces (SMPTE ST 291-1, ST 334-1 and ST 334-2). After the last whole frame
/// it has the screens of line 21 (CTA-608-E; 47 CFR 79.101), the windows of the 63 services of DTVCC (CTA-708-E), and what that frame
/// says.
///
/// A packet of captions acts when it ends, after a good checksum word, and other packets change nothing. After a refusal the
/// receiver stays at the last whole frame. All memory that it ever takes is taken by `new`.
#[derive(Drop)]
pub struct Receiver {
    words: WordReader,
    captions: Captions,
}

impl Receiver {
    ghost use Rattle.line21_screen.specs.Objects.{grid_in};
    ghost use Rattle.cc_receiver.specs.Receivers.{HasReceived, displayed_grid, frame_count, received_mode, receiver_refusal};
    ghost use Rattle.cc_receiver.specs.Wholes.{ReadsWhole};
    ghost use Rattle.cc_receiver.specs.ReceivedServices.{fills_in, received_service, received_windows};
    ghost use Rattle.dtvcc_services.specs.Numbers.{IsLowest, IsService};
    ghost use Rattle.dtvcc_windows.specs.Objects.{is_live, window_of};

    /// A receiver that was fed nothing. The error comes if memory for its four screens isn't found.
    pub fn new(alloc: Global) -> Result<Receiver, AllocError>
        ensures { IfOk result (HasReceived []) }
    {
        Ok(Receiver {
            words: WordReader::new(),
            captions: Captions::new(alloc)?,
        })
    }

    /// Reads the next bytes, up to the end of an ancillary packet: it stops after the word that ends one. Fewer than
    /// 4,294,967,295 frames have ended before.
    ///
    /// A word is refused where no file can continue with it: for its high bits, the flag, its parity or the checksum, in
    /// this order (SMPTE ST 291-1). In a packet of captions it is also refused as a byte of its distribution packet (SMPTE
    /// ST 334-2). The place is the number of the word's first byte. A refusal is kept and answered from then on, with
    /// nothing read.
    pub fn feed(&mut self, bytes: &[u8]) -> Result<Fed, Refusal>
        requires few { frame_count self.now < 4294967295 }
        ensures feeds { (before : List ℕ) → HasReceived before self.old
            → Feeds before bytes.now self.old self.new result }
        ensures within { IfOk result (λ fed. fed.used ≤ length bytes.now) }
        ensures all { IfOk result (λ fed. fed.ended ≡ ended.No → fed.used ≡ length bytes.now) }
        ensures some { IfOk result (λ fed. fed.ended ≢ ended.No → 0 < fed.used) }
        ensures kept { (refused : Refused) → receiver_refusal self.old ≡ Some refused
            → (result_err result ≡ Some refused) × (self.new ≡ self.old) }
        ensures told { receiver_refusal self.new ≡ result_err result }
    {
        if let Some(refusal) = self.words.refusal() {
            return Err(refusal);
        }
        if let Some(used) = self.whole(bytes) {
            return Ok(Fed {
                used,
                ended: Ended::Caption,
            });
        }
        let mut used = 0;
        while used < bytes.len() {
            let behind = used + self.words.bytes_to_end().min(bytes.len() - used);
            let ended = self.read(&bytes[used..behind])?;
            used = behind;
            if ended != Ended::No {
                return Ok(Fed { used, ended });
            }
        }
        Ok(Fed {
            used,
            ended: Ended::No,
        })
    }

    // Reads a whole packet of captions in one pass, where no packet is open and the bytes begin with one that no word of is
    // refused. Gives the number of its bytes; `None` elsewhere, and then nothing has changed.
    fn whole(&mut self, bytes: &[u8]) -> Option<usize>
        requires few { frame_count self.now < 4294967295 }
        ensures reads { (before : List ℕ) → HasReceived before self.old
            → IfSome result (λ used. ReadsWhole before bytes.now used self.old self.new) }
        ensures within { IfSome result (λ used. used ≤ length bytes.now) }
        ensures some { IfSome result (λ used. 0 < used) }
        ensures told { IsSome result → receiver_refusal self.new ≡ None }
        ensures none { IsNone result → self.new ≡ self.old }
    {
        if !self.words.is_closed() {
            return None;
        }
        let packet = CaptionPacket::at_front(bytes)?;
        let mut user = [0; 255];
        let count = packet.user_bytes(&mut user);
        if !self.captions.whole(&user[..count], packet.sum()) {
            return None;
        }
        self.words.pass_over(&packet);
        Some(packet.size())
    }

    // Reads the next bytes, no more than come before the end of a packet, and says whether they end it.
    fn read(&mut self, piece: &[u8]) -> Result<Ended, Refusal>
        requires some { 0 < length piece.now }
        requires few { frame_count self.now < 4294967295 }
        ensures received { (before : List ℕ) → HasReceived before self.old
            → length piece.now ≤ bytes_to_end (open_behind anc_syntax before)
            → HasReceived (before ++ piece.now) self.new }
        ensures refusal { (before : List ℕ) → HasReceived before self.old
            → length piece.now ≤ bytes_to_end (open_behind anc_syntax before)
            → result_err result ≡ refusal_of services_say (before ++ piece.now) }
        ensures ended { (before : List ℕ) → HasReceived before self.old
            → length piece.now ≤ bytes_to_end (open_behind anc_syntax before)
            → IfOk result (λ answer. EndsBy answer (before ++ piece.now)) }
        ensures told { receiver_refusal self.new ≡ result_err result }
        ensures more { (before : List ℕ) → HasReceived before self.old
            → length piece.now ≤ bytes_to_end (open_behind anc_syntax before)
            → IfOk result (λ answer. answer ≡ ended.Caption
            → frame_count self.new ≡ frame_count self.old + 1) }
        ensures same { IfOk result
            (λ answer. answer ≢ ended.Caption → frame_count self.new ≡ frame_count self.old) }
    {
        let frames = self.captions.frames;
        self.take(piece)?;
        if self.captions.frames != frames {
            Ok(Ended::Caption)
        } else if self.words.finish().is_ok() {
            Ok(Ended::Foreign)
        } else {
            Ok(Ended::No)
        }
    }

    // Takes the next bytes, no more than come before the end of a packet.
    fn take(&mut self, piece: &[u8]) -> Result<(), Refusal>
        requires some { 0 < length piece.now }
        requires few { frame_count self.now < 4294967295 }
        ensures received { (before : List ℕ) → HasReceived before self.old
            → length piece.now ≤ bytes_to_end (open_behind anc_syntax before)
            → HasReceived (before ++ piece.now) self.new }
        ensures refusal { (before : List ℕ) → HasReceived before self.old
            → length piece.now ≤ bytes_to_end (open_behind anc_syntax before)
            → result_err result ≡ refusal_of services_say (before ++ piece.now) }
        ensures told { receiver_refusal self.new ≡ result_err result }
    {
        self.words.feed(piece, &mut self.captions)
    }

    /// Says whether the bytes fed may end here. Else it answers the kept refusal, if there is one, or `Truncated`, at the
    /// number of bytes fed, where bytes were fed and the last of them doesn't end a packet.
    pub fn finish(&self) -> Result<(), Refusal>
        ensures kept { (refused : Refused) → receiver_refusal self.now ≡ Some refused
            → result_err result ≡ Some refused }
        ensures whole { (bytes : List ℕ) → HasReceived bytes self.now → IsOk result
            → (frames : List FrameOf) × IsFileUnder caption_channel frames bytes }
        ensures file { (bytes : List ℕ) (frames : List FrameOf) → HasReceived bytes self.now
            → IsFileUnder caption_channel frames bytes
            → IsOk result }
        ensures malformed { (bytes : List ℕ) → HasReceived bytes self.now
            → IfErr result (λ refused. IsMalformed caption_channel bytes refused) }
    {
        self.words.finish()
    }

    /// The number of whole frames.
    pub fn frames(&self) -> u32
        ensures count { result ≡ frame_count self.now }
        ensures frames { (bytes : List ℕ) (frames : List FrameOf) → HasReceived bytes self.now
            → AreFramesOf caption_channel frames bytes
            → result ≡ length frames }
    {
        self.captions.frames
    }

    /// The displayed cell of a channel at a row, 1 to 15, and a column, 0 to 31, after the last whole frame (CTA-608-E; 47
    /// CFR 79.101).
    pub fn cell(&self, chan: Chan, row: u8, col: u8) -> Option<Cell>
        requires row_from { 1 ≤ row }
        requires row_to { row ≤ 15 }
        requires col { col < 32 }
        ensures shown { result ≡ displayed_grid self.now chan row col }
        ensures received { (bytes : List ℕ) (frames : List FrameOf) → HasReceived bytes self.now
            → AreFramesOf caption_channel frames bytes
            → result ≡ received_grids frames chan row col }
    {
        self.displayed(chan).cell(row, col)
    }

    /// The displayed memory of a channel after the last whole frame (CTA-608-E; 47 CFR 79.101).
    pub fn displayed(&self, chan: Chan) -> &Memory
        ensures { grid_in result.now ≡ displayed_grid self.now chan }
    {
        self.captions
            .field(chan.field())
            .displayed(chan.data_channel())
    }

    /// The mode of a channel after the last whole frame: what its next characters are written for (CTA-608-E; 47 CFR 79.101).
    pub fn mode(&self, chan: Chan) -> Mode
        ensures received { (bytes : List ℕ) (frames : List FrameOf) → HasReceived bytes self.now
            → AreFramesOf caption_channel frames bytes
            → result ≡ received_mode frames chan }
    {
        let second_channel = chan.data_channel() == DataChannel::Two;
        self.captions.field(chan.field()).mode(second_channel)
    }

    /// Whether all pairs of line 21 of the last whole frame, where there is one, are null pairs, 80 80: such a frame leaves all
    /// screens as they were (CTA-608-E).
    pub fn is_idle(&self) -> bool
        requires { 0 < frame_count self.now }
        ensures idle { (bytes : List ℕ) (earlier : List FrameOf) (last : FrameOf)
            → HasReceived bytes self.now
            → AreFramesOf caption_channel (earlier ++ last ∷ []) bytes → result ≡ is_idle last }
        ensures still { (bytes : List ℕ) (earlier : List FrameOf) (last : FrameOf)
            → HasReceived bytes self.now
            → AreFramesOf caption_channel (earlier ++ last ∷ []) bytes → IsTrue result
            → (chan : Channel)
            → displayed_grid self.now chan ≡ received_grids earlier chan }
    {
        self.captions.last.is_idle()
    }

    /// The window of an id of a service, 1 to 63, after the last whole frame, where there is one (CTA-708-E).
    pub fn window(&self, service: u8, id: u8) -> Option<&Window>
        requires { IsService service }
        ensures received { (bytes : List ℕ) (frames : List FrameOf) → HasReceived bytes self.now
            → AreFramesOf caption_channel frames bytes
            → let windows = (received_service frames service).screen.windows in
            MatchOption result (windows id ≡ None) (λ window. window_of window.now ≡ windows id) }
        ensures live { IfSome result (λ window. IsTrue (is_live window.now)) }
    {
        self.captions.served.services.window(service, id)
    }

    /// The number of bytes that a delay of a service, 1 to 63, holds after the last whole frame, at most 127 (CTA-708-E, Delay).
    pub fn held(&self, service: u8) -> u8
        requires { IsService service }
        ensures received { (bytes : List ℕ) (frames : List FrameOf) → HasReceived bytes self.now
            → AreFramesOf caption_channel frames bytes
            → result ≡ length (received_service frames service).held }
        ensures most { result ≤ 127 }
    {
        self.captions.served.services.held(service)
    }

    /// Whether a service, 1 to 63, may have a window: where it says no, it was sent no byte since the first frame, or since it was last
    /// reset, and it has none.
    pub fn is_used(&self, service: u8) -> bool
        requires { IsService service }
        ensures { (bytes : List ℕ) (frames : List FrameOf) → HasReceived bytes self.now
            → AreFramesOf caption_channel frames bytes
            → result ≡ false → (id : ℕ) → received_windows frames service id ≡ None }
    {
        self.captions.served.services.is_used(service)
    }

    /// Whether something that is seen of a service may have changed in the last whole frame: where it says no, all windows of all
    /// services are seen as they were before it.
    pub fn is_touched(&self) -> bool
        requires { 0 < frame_count self.now }
        ensures { (bytes : List ℕ) (earlier : List FrameOf) (last : FrameOf)
            → HasReceived bytes self.now
            → AreFramesOf caption_channel (earlier ++ last ∷ []) bytes → result ≡ false
            → (service id : ℕ) → IsService service
            → received_windows (earlier ++ last ∷ []) service id
            ≡ received_windows earlier service id }
    {
        self.captions.served.services.is_touched()
    }

    /// The lowest service of which a byte of the last whole frame brought the held bytes to 128, which ended its delay (CTA-708-E,
    /// Delay).
    pub fn filled(&self) -> Option<u8>
        requires { 0 < frame_count self.now }
        ensures { (bytes : List ℕ) (earlier : List FrameOf) (last : FrameOf)
            → HasReceived bytes self.now
            → AreFramesOf caption_channel (earlier ++ last ∷ []) bytes
            → IsLowest (fills_in earlier last) result }
    {
        self.captions.served.services.filled()
    }

    /// The frame rate of the last whole frame, where there is one (SMPTE ST 334-2, cdp_header).
    pub fn rate(&self) -> Rate
        requires { 0 < frame_count self.now }
        ensures { (bytes : List ℕ) (earlier : List FrameOf) (last : FrameOf)
            → HasReceived bytes self.now
            → AreFramesOf caption_channel (earlier ++ last ∷ []) bytes → result ≡ last.rate }
    {
        self.captions.last.rate
    }

    /// The flags of the last whole frame, where there is one (SMPTE ST 334-2, cdp_header).
    pub fn flags(&self) -> u8
        requires { 0 < frame_count self.now }
        ensures { (bytes : List ℕ) (earlier : List FrameOf) (last : FrameOf)
            → HasReceived bytes self.now
            → AreFramesOf caption_channel (earlier ++ last ∷ []) bytes → result ≡ last.flags }
    {
        self.captions.last.flags
    }

    /// The counter of the last whole frame, where there is one (SMPTE ST 334-2, cdp_header).
    pub fn counter(&self) -> u16
        requires { 0 < frame_count self.now }
        ensures { (bytes : List ℕ) (earlier : List FrameOf) (last : FrameOf)
            → HasReceived bytes self.now
            → AreFramesOf caption_channel (earlier ++ last ∷ []) bytes → result ≡ last.counter }
    {
        self.captions.last.counter
    }

    /// The number of triplets of the last whole frame, where there is one, of those too that don't count (CTA-708-E,
    /// cc_data()).
    pub fn triplet_count(&self) -> u16
        requires { 0 < frame_count self.now }
        ensures { (bytes : List ℕ) (earlier : List FrameOf) (last : FrameOf)
            → HasReceived bytes self.now
            → AreFramesOf caption_channel (earlier ++ last ∷ []) bytes
            → result ≡ length (packet_triplets last) }
    {
        self.captions.last.triplets.as_slice().len() as u16
    }

    /// The bytes of the sections of the last whole frame, where there is one, one section after another (SMPTE ST 334-2).
    pub fn sections(&self) -> &[u8]
        requires { 0 < frame_count self.now }
        ensures { (bytes : List ℕ) (earlier : List FrameOf) (last : FrameOf)
            → HasReceived bytes self.now
            → AreFramesOf caption_channel (earlier ++ last ∷ []) bytes
            → result.now ≡ concat last.sections }
    {
        self.captions.last.sections.as_slice()
    }

    /// The triplets of the last whole frame, where there is one, in order, those too that don't count (CTA-708-E,
    /// cc_data()).
    pub fn triplets(&self) -> &[Triplet]
        requires { 0 < frame_count self.now }
        ensures { (bytes : List ℕ) (earlier : List FrameOf) (last : FrameOf)
            → HasReceived bytes self.now
            → AreFramesOf caption_channel (earlier ++ last ∷ []) bytes
            → result.now ≡ packet_triplets last }
    {
        self.captions.last.triplets.as_slice()
    }

    /// The triplets of the last whole frame, where there is one, in order, down to the last one that counts (CTA-708-E, cc_data()).
    pub fn front_of_triplets(&self) -> &[Triplet]
        requires { 0 < frame_count self.now }
        ensures { (bytes : List ℕ) (earlier : List FrameOf) (last : FrameOf)
            → HasReceived bytes self.now
            → AreFramesOf caption_channel (earlier ++ last ∷ []) bytes
            → HasFront result.now (packet_triplets last) }
    {
        self.captions.last.triplets.front()
    }

    /// The pairs of field 1 of the last whole frame, where there is one, in order, from the triplets that count
    /// (CTA-708-E, cc_data()).
    pub fn pairs_one(&self) -> &[Pair]
        requires { 0 < frame_count self.now }
        ensures { (bytes : List ℕ) (earlier : List FrameOf) (last : FrameOf)
            → HasReceived bytes self.now
            → AreFramesOf caption_channel (earlier ++ last ∷ []) bytes
            → result.now ≡ field_pairs One (packet_triplets last) }
    {
        self.captions.last.pairs_one.as_slice()
    }

    /// The pairs of field 2 of the last whole frame, where there is one, in order, from the triplets that count
    /// (CTA-708-E, cc_data()).
    pub fn pairs_two(&self) -> &[Pair]
        requires { 0 < frame_count self.now }
        ensures { (bytes : List ℕ) (earlier : List FrameOf) (last : FrameOf)
            → HasReceived bytes self.now
            → AreFramesOf caption_channel (earlier ++ last ∷ []) bytes
            → result.now ≡ field_pairs Two (packet_triplets last) }
    {
        self.captions.last.pairs_two.as_slice()
    }
}
