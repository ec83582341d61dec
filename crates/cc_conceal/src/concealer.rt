ghost use Rattle.std.specs.Prelude.{None, Some, ◌^◌, true, false, if◌then◌else◌, ◌≡◌, ◌≢◌, ◌≤◌, ◌<◌, ◌+◌, ◌++◌, ℕ, List, [], ◌∷◌, IfErr, IfOk, IfSome, IsOk, IsTrue, MatchOption, length};
ghost use Rattle.cdp_packets.specs.Packets.{Frame};
ghost use Rattle.words_files.specs.FramesOf.{AreFramesOf};
ghost use Rattle.cc_receiver.specs.Feeds.{Feeds};
ghost use Rattle.words_files.specs.Offences.{IsFileUnder, IsMalformed};
ghost use Rattle.services_files.specs.CaptionChannel.{caption_channel};
ghost use Rattle.services_files.specs.CarriedChannel.{file_triplets};
ghost use Rattle.service_blocks.specs.Channels.{IsHeard};
ghost use Rattle.dtvcc_services.specs.Numbers.{IsService};
ghost use Rattle.line21_codes.specs.declared.channels.Chan.{Chan as Channel};
ghost use Rattle.dtvcc_services.specs.Objects.{all_ticks};
ghost use Rattle.dtvcc_windows.specs.Objects.{is_live, window_of};
ghost use Rattle.cc_receiver.specs.Receivers.{HasReceived, receiver_refusal};
ghost use Rattle.cc_receiver.specs.declared.receiver.Ended.TheVariants as ended;
ghost use Rattle.std.specs.Result.{result_err};
ghost use Rattle.cc_receiver.specs.ReceivedServices.{received_service};

use crate::numbers::distance;
use crate::pairs::apply_pairs;
use cc_base::Refusal;
use cc_receiver::{Ended, Fed, Receiver, Served};
use dtvcc_windows::Window;
use line21_codes::{Cell, Chan, DataChannel, FieldNumber};
use line21_screen::{Field, Memory};
use std::alloc::{AllocError, Global};

/// The receiver of a words file of which frames may be missing, or in which bytes of line 21 have bad parity; the bytes come in any
/// pieces. It has the screens of line 21 and the windows of the 63 services of DTVCC after the last whole frame (CTA-608-E;
/// CTA-708-E). It tells which frame that is and how many are missing before it (SMPTE ST 334-2, cdp_hdr_sequence_cntr).
///
/// All channels and services are reset at a frame whose counter isn't the previous frame's plus 1, modulo 65,536. A pair of line 21 counts
/// as null where its first byte has bad parity, or where its second has and the first, without its parity, is from 01 to 1F. Elsewhere a
/// second byte of bad parity counts as 7F, a solid block. It refuses what a `Receiver` refuses, and stays at the last whole frame then.
/// All memory that it ever takes is taken by `new`.
#[derive(Drop)]
pub struct Concealer {
    receiver: Receiver,
    first: Field,
    second: Field,
    // Its own services, and whether it has them: up to the first jump of a counter they are the receiver's.
    served: Served,
    apart: bool,
    // The counter of the last whole frame, if there was one.
    counter: Option<u16>,
    // The number of the last whole frame, how many frames are missing right before it, and whether all was reset there.
    number: u64,
    missing: u64,
    jumped: bool,
}

impl Concealer {
    ghost use Rattle.line21_screen.specs.Objects.{grid_in};
    ghost use Rattle.cc_conceal.specs.Concealed.{concealed_grids, concealed_windows, heard_of, missing_before, number_of_last};
    ghost use Rattle.cc_conceal.specs.Concealers.{Conceals, ConcealsOn, HasActed, HasConcealed, IsBehind, concealed_frames, displayed_now, jumps_from, kept_at, next_missing, next_number, receiver_of};

    /// A receiver that was fed nothing. The error comes if memory for its screens isn't found.
    pub fn new(alloc: Global) -> Result<Concealer, AllocError>
        ensures { IfOk result (HasConcealed []) }
    {
        Ok(Concealer {
            receiver: Receiver::new(alloc)?,
            first: Field::new(alloc, false)?,
            second: Field::new(alloc, true)?,
            served: Served::new(alloc)?,
            apart: false,
            counter: None,
            number: 0,
            missing: 0,
            jumped: false,
        })
    }

    /// Reads the next bytes, up to the end of an ancillary packet: it stops after the word that ends one. Fewer than 4,294,967,295
    /// frames have ended before. A word is refused where and for what a `Receiver` refuses it; a refusal is kept and answered from
    /// then on, with nothing read.
    pub fn feed(&mut self, bytes: &[u8]) -> Result<Fed, Refusal>
        requires few { concealed_frames self.now < 4294967295 }
        requires on { (before : List ℕ) × HasConcealed before self.old }
        ensures conceals { (before : List ℕ) → HasConcealed before self.old
            → ConcealsOn before bytes.now self.new result }
        ensures feeds { (before : List ℕ) → HasConcealed before self.old
            → Feeds before bytes.now (receiver_of self.old) (receiver_of self.new) result }
        ensures within { IfOk result (λ fed. fed.used ≤ length bytes.now) }
        ensures all { IfOk result (λ fed. fed.ended ≡ ended.No → fed.used ≡ length bytes.now) }
        ensures some { IfOk result (λ fed. fed.ended ≢ ended.No → 0 < fed.used) }
        ensures told { receiver_refusal (receiver_of self.new) ≡ result_err result }
    {
        let fed = self.receiver.feed(bytes)?;
        match fed.ended {
            Ended::Caption => {
                self.act();
                Ok(fed)
            }
            _ => Ok(fed),
        }
    }

    /// Says whether the bytes fed may end here. Else it answers the kept refusal, if there is one, or `Truncated`, at the number of
    /// bytes fed, where bytes were fed and the last of them doesn't end a packet.
    pub fn finish(&self) -> Result<(), Refusal>
        ensures whole { (bytes : List ℕ) → HasConcealed bytes self.now → IsOk result
            → (frames : List Frame) × IsFileUnder caption_channel frames bytes }
        ensures file { (bytes : List ℕ) (frames : List Frame) → HasConcealed bytes self.now
            → IsFileUnder caption_channel frames bytes
            → IsOk result }
        ensures malformed { (bytes : List ℕ) → HasConcealed bytes self.now
            → IfErr result (λ refused. IsMalformed caption_channel bytes refused) }
    {
        self.receiver.finish()
    }

    // The frame that ended last acts.
    fn act(&mut self)
        requires some { 0 < concealed_frames self.now }
        requires few { all_ticks self.old.served.services < 4294967295 }
        requires small { self.old.number + 65536 < 2 ^ 64 }
        ensures receiver { self.new.receiver ≡ self.old.receiver }
        ensures acted { (bytes : List ℕ) (earlier : List Frame) (last : Frame)
            → HasReceived bytes self.old.receiver
            → AreFramesOf caption_channel (earlier ++ last ∷ []) bytes → HasActed earlier self.old
            → HasActed (earlier ++ last ∷ []) self.new }
    {
        let counter = self.receiver.counter();
        self.reset_at(counter);
        self.take();
        self.count(counter);
    }

    // Counts a frame of this counter.
    fn count(&mut self, counter: u16)
        requires small { self.old.number + 65536 < 2 ^ 64 }
        ensures counter { self.new ≡ record self.old {
          counter = Some counter;
          number = next_number self.old.counter self.old.number counter;
          missing = next_missing self.old.counter counter;
          jumped = jumps_from self.old.counter counter;
        } }
    {
        self.jumped = self.jumps(counter);
        match self.counter {
            None => {
                self.number = u64::from(counter);
                self.missing = 0;
            }
            Some(former) => {
                let distance = distance(former, counter);
                self.number += distance;
                self.missing = distance - 1;
            }
        }
        self.counter = Some(counter);
    }

    /// The number of whole frames.
    pub fn frames(&self) -> u32
        ensures count { result ≡ concealed_frames self.now }
        ensures frames { (bytes : List ℕ) (frames : List Frame) → HasConcealed bytes self.now
            → AreFramesOf caption_channel frames bytes
            → result ≡ length frames }
    {
        self.receiver.frames()
    }

    /// The number of the last whole frame. It is the counter of the first one, and grows at each further one by the difference of the
    /// counters modulo 65,536, with 65,536 in place of 0.
    pub fn frame(&self) -> u64
        requires { 0 < concealed_frames self.now }
        ensures { (frames : List Frame) → Conceals frames self.now
            → result ≡ number_of_last frames }
    {
        self.number
    }

    /// How many frames are missing right before the last whole one, from 0 to 65,535; none before the first.
    pub fn missing(&self) -> u64
        requires { 0 < concealed_frames self.now }
        ensures { (frames : List Frame) → Conceals frames self.now
            → result ≡ missing_before frames }
    {
        self.missing
    }

    // Whether a counter doesn't go on from the last whole frame's.
    fn jumps(&self, counter: u16) -> bool
        ensures { result ≡ jumps_from self.now.counter counter }
    {
        match self.counter {
            Some(former) => counter != former.wrapping_add(1),
            None => false,
        }
    }

    // Resets all fields and services where a counter doesn't go on.
    fn reset_at(&mut self, counter: u16)
        ensures receiver { self.new.receiver ≡ self.old.receiver }
        ensures counter { self.new.counter ≡ self.old.counter }
        ensures number { self.new.number ≡ self.old.number }
        ensures apart { self.new.apart
            ≡ (if jumps_from self.old.counter counter then true else self.old.apart) }
        ensures ticks { all_ticks self.new.served.services ≡ all_ticks self.old.served.services }
        ensures behind { (heard : List Frame) → IsBehind heard self.old
            → IsBehind (kept_at (jumps_from self.old.counter counter) heard) self.new }
    {
        if self.jumps(counter) {
            self.reset();
        }
    }

    // Resets all fields and services, and has services of its own from now on.
    fn reset(&mut self)
        ensures receiver { self.new.receiver ≡ self.old.receiver }
        ensures counter { self.new.counter ≡ self.old.counter }
        ensures number { self.new.number ≡ self.old.number }
        ensures apart { self.new.apart ≡ true }
        ensures ticks { all_ticks self.new.served.services ≡ all_ticks self.old.served.services }
        ensures behind { (heard : List Frame) → IsBehind heard self.old → IsBehind [] self.new }
    {
        self.first.reset();
        self.second.reset();
        self.served.reset();
        self.apart = true;
    }

    // Takes the pairs and the triplets of the last frame.
    fn take(&mut self)
        requires some { 0 < concealed_frames self.now }
        requires few { all_ticks self.old.served.services < 4294967295 }
        ensures receiver { self.new.receiver ≡ self.old.receiver }
        ensures counter { self.new.counter ≡ self.old.counter }
        ensures number { self.new.number ≡ self.old.number }
        ensures apart { self.new.apart ≡ self.old.apart }
        ensures ticks { all_ticks self.new.served.services
            ≤ all_ticks self.old.served.services + 1 }
        ensures behind { (bytes : List ℕ) (earlier heard : List Frame) (last : Frame)
            → HasReceived bytes self.old.receiver
            → AreFramesOf caption_channel (earlier ++ last ∷ []) bytes
            → IsHeard (file_triplets (heard ++ last ∷ [])) → IsBehind heard self.old
            → IsBehind (heard ++ last ∷ []) self.new }
    {
        apply_pairs(&mut self.first, self.receiver.pairs_one());
        apply_pairs(&mut self.second, self.receiver.pairs_two());
        if self.apart {
            self.served
                .frame(self.receiver.rate(), self.receiver.front_of_triplets());
        }
    }

    /// The displayed cell of a channel at a row, 1 to 15, and a column, 0 to 31, after the last whole frame (CTA-608-E; 47 CFR 79.101).
    pub fn cell(&self, chan: Chan, row: u8, col: u8) -> Option<Cell>
        requires row_from { 1 ≤ row }
        requires row_to { row ≤ 15 }
        requires col { col < 32 }
        ensures { (frames : List Frame) → Conceals frames self.now
            → result ≡ concealed_grids frames chan row col }
    {
        let second = chan.data_channel() == DataChannel::Two;
        match chan.field() {
            FieldNumber::One => self.first.cell(second, row, col),
            FieldNumber::Two => self.second.cell(second, row, col),
        }
    }

    /// The displayed memory of a channel after the last whole frame (CTA-608-E; 47 CFR 79.101).
    pub fn displayed(&self, chan: Chan) -> &Memory
        ensures grid { grid_in result.now ≡ displayed_now self.now chan }
        ensures concealed { (frames : List Frame) → Conceals frames self.now
            → grid_in result.now ≡ concealed_grids frames chan }
    {
        let data_channel = chan.data_channel();
        match chan.field() {
            FieldNumber::One => self.first.displayed(data_channel),
            FieldNumber::Two => self.second.displayed(data_channel),
        }
    }

    /// The window of an id of a service, 1 to 63, after the last whole frame, where there is one (CTA-708-E).
    pub fn window(&self, service: u8, id: u8) -> Option<&Window>
        requires { IsService service }
        ensures window { (frames : List Frame) → Conceals frames self.now
            → let windows = (received_service (heard_of frames) service).screen.windows in
            MatchOption result (windows id ≡ None) (λ window. window_of window.now ≡ windows id) }
        ensures live { IfSome result (λ window. IsTrue (is_live window.now)) }
    {
        if self.apart {
            self.served.window(service, id)
        } else {
            self.receiver.window(service, id)
        }
    }

    /// Whether a service, 1 to 63, may have a window: where it says no, it has none (CTA-708-E).
    pub fn is_used(&self, service: u8) -> bool
        requires { IsService service }
        ensures { (frames : List Frame) → Conceals frames self.now → result ≡ false → (id : ℕ)
            → concealed_windows frames service id ≡ None }
    {
        if self.apart {
            self.served.is_used(service)
        } else {
            self.receiver.is_used(service)
        }
    }

    /// Whether no frame is missing right before the last whole one, and all its pairs of line 21 are null pairs, 80 80: such a frame leaves
    /// all channels as they were (CTA-608-E).
    pub fn is_idle(&self) -> bool
        requires { 0 < concealed_frames self.now }
        ensures { (bytes : List ℕ) (earlier : List Frame) (last : Frame)
            → HasConcealed bytes self.now
            → AreFramesOf caption_channel (earlier ++ last ∷ []) bytes → IsTrue result
            → (chan : Channel)
            → concealed_grids (earlier ++ last ∷ []) chan ≡ concealed_grids earlier chan }
    {
        if self.jumped {
            return false;
        }
        self.receiver.is_idle()
    }

    /// Whether something that is seen of a service may have changed in the last whole frame, or frames are missing right before it. Where
    /// it says no, all windows of all services are seen as they were before it (CTA-708-E).
    pub fn is_touched(&self) -> bool
        requires { 0 < concealed_frames self.now }
        ensures { (bytes : List ℕ) (earlier : List Frame) (last : Frame)
            → HasConcealed bytes self.now
            → AreFramesOf caption_channel (earlier ++ last ∷ []) bytes → result ≡ false
            → (service id : ℕ) → IsService service
            → concealed_windows (earlier ++ last ∷ []) service id
            ≡ concealed_windows earlier service id }
    {
        if self.jumped {
            return true;
        }
        if self.apart {
            self.served.is_touched()
        } else {
            self.receiver.is_touched()
        }
    }
}
