ghost use Rattle.std.specs.Prelude.{◌≡◌, ◌≤◌, ◌<◌, ℕ, List, [], IfErr, IfOk, IfSome, IsOk, IsTrue, MatchOption, None, false, length};
ghost use Rattle.cc_receiver.specs.declared.receiver.Ended.TheVariants as ended;
ghost use Rattle.cdp_packets.specs.Packets.{Frame};
ghost use Rattle.dtvcc_services.specs.Numbers.{IsService};
ghost use Rattle.dtvcc_windows.specs.Objects.{is_live, window_of};
ghost use Rattle.line21_screen.specs.Objects.{grid_in};
ghost use Rattle.cc_receiver.specs.CaptionChannel.{caption_channel};
ghost use Rattle.words_files.specs.Offences.{IsFileUnder, IsMalformed};

use cc_base::Refusal;
use cc_conceal::Concealer;
use cc_receiver::{Fed, Grids, Receiver};
use dtvcc_windows::Window;
use line21_codes::{Cell, Chan};
use line21_screen::Memory;
use std::alloc::{AllocError, Global};

/// A receiver of words: of whole files, or of words of which frames may be missing.
#[derive(Drop)]
pub enum Reception {
    /// It takes every frame as the next one.
    Plain(Receiver),
    /// It is reset where frames are missing, and shows a solid block for a byte of line 21 that has bad parity.
    Concealing(Concealer),
}

impl Reception {
    ghost use Rattle.caption_streams.specs.Receptions.{FeedsOn, HasFed, StandsBehind, frame_total, grids_behind, missing_behind, number_behind, service_behind};

    /// Reads the next bytes, up to the end of an ancillary packet. Fewer than 4,294,967,295 frames have ended before. A word is refused
    /// where no file can continue with it; a refusal is kept and answered from then on, with nothing read.
    pub fn feed(&mut self, bytes: &[u8]) -> Result<Fed, Refusal>
        requires few { frame_total self.now < 4294967295 }
        requires on { (before : List ℕ) × HasFed before self.old }
        ensures feeds { (before : List ℕ) → HasFed before self.old
            → FeedsOn before bytes.now self.old self.new result }
        ensures within { IfOk result (λ fed. fed.used ≤ length bytes.now) }
        ensures all { IfOk result (λ fed. fed.ended ≡ ended.No → fed.used ≡ length bytes.now) }
    {
        match self {
            Reception::Plain(receiver) => receiver.feed(bytes),
            Reception::Concealing(concealer) => concealer.feed(bytes),
        }
    }

    /// Says whether the bytes fed may end here. Else it answers the kept refusal, if there is one, or `Truncated`, at the number of
    /// bytes fed, where bytes were fed and the last of them doesn't end a packet.
    pub fn finish(&self) -> Result<(), Refusal>
        ensures whole { (bytes : List ℕ) → HasFed bytes self.now → IsOk result
            → (frames : List Frame) × IsFileUnder caption_channel frames bytes }
        ensures file { (bytes : List ℕ) (frames : List Frame) → HasFed bytes self.now
            → IsFileUnder caption_channel frames bytes
            → IsOk result }
        ensures malformed { (bytes : List ℕ) → HasFed bytes self.now
            → IfErr result (λ refused. IsMalformed caption_channel bytes refused) }
    {
        match self {
            Reception::Plain(receiver) => receiver.finish(),
            Reception::Concealing(concealer) => concealer.finish(),
        }
    }

    /// The number of whole frames.
    pub fn frames(&self) -> u32
        ensures { result ≡ frame_total self.now }
    {
        match self {
            Reception::Plain(receiver) => receiver.frames(),
            Reception::Concealing(concealer) => concealer.frames(),
        }
    }

    /// The displayed cell of a channel at a row, 1 to 15, and a column, 0 to 31, after the last whole frame (CTA-608-E; 47 CFR 79.101).
    pub fn cell(&self, chan: Chan, row: u8, col: u8) -> Option<Cell>
        requires row_from { 1 ≤ row }
        requires row_to { row ≤ 15 }
        requires col { col < 32 }
        ensures { (frames : List Frame) → StandsBehind frames self.now
            → result ≡ grids_behind self.now frames chan row col }
    {
        match self {
            Reception::Plain(receiver) => receiver.cell(chan, row, col),
            Reception::Concealing(concealer) => concealer.cell(chan, row, col),
        }
    }

    /// The displayed memory of a channel after the last whole frame (CTA-608-E; 47 CFR 79.101).
    pub fn displayed(&self, chan: Chan) -> &Memory
        ensures { (frames : List Frame) → StandsBehind frames self.now
            → grid_in result.now ≡ grids_behind self.now frames chan }
    {
        Grids::displayed(self, chan)
    }

    /// The window of an id of a service, 1 to 63, after the last whole frame, where there is one (CTA-708-E).
    pub fn window(&self, service: u8, id: u8) -> Option<&Window>
        requires { IsService service }
        ensures window { (frames : List Frame) → StandsBehind frames self.now
            → let windows = (service_behind self.now frames service).screen.windows in
            MatchOption result (windows id ≡ None) (λ window. window_of window.now ≡ windows id) }
        ensures live { IfSome result (λ window. IsTrue (is_live window.now)) }
    {
        match self {
            Reception::Plain(receiver) => receiver.window(service, id),
            Reception::Concealing(concealer) => concealer.window(service, id),
        }
    }

    /// The number of the last whole frame, of which there is one: how many came before it; or by the counters of the frames, where some
    /// may be missing (SMPTE ST 334-2, cdp_hdr_sequence_cntr).
    pub fn number(&self) -> u64
        requires { 0 < frame_total self.now }
        ensures { (frames : List Frame) → StandsBehind frames self.now
            → result ≡ number_behind self.now frames }
    {
        match self {
            Reception::Plain(receiver) => u64::from(receiver.frames() - 1),
            Reception::Concealing(concealer) => concealer.frame(),
        }
    }

    /// How many frames are missing right before the last whole one, of which there is one: 0 to 65,535.
    pub fn missing(&self) -> u64
        requires { 0 < frame_total self.now }
        ensures { (frames : List Frame) → StandsBehind frames self.now
            → result ≡ missing_behind self.now frames }
    {
        match self {
            Reception::Plain(_) => 0,
            Reception::Concealing(concealer) => concealer.missing(),
        }
    }
}

impl Grids for Reception {
    ghost use Rattle.caption_streams.specs.Receptions.{ShowsNow, displayed_in};

    ghost grids = { displayed_in };

    ghost shows = { ShowsNow };

    fn displayed(&self, chan: Chan) -> &Memory {
        match self {
            Reception::Plain(receiver) => Grids::displayed(receiver, chan),
            Reception::Concealing(concealer) => Grids::displayed(concealer, chan),
        }
    }

    fn window(&self, service: u8, id: u8) -> Option<&Window> {
        match self {
            Reception::Plain(receiver) => Grids::window(receiver, service, id),
            Reception::Concealing(concealer) => Grids::window(concealer, service, id),
        }
    }

    fn is_used(&self, service: u8) -> bool {
        match self {
            Reception::Plain(receiver) => Grids::is_used(receiver, service),
            Reception::Concealing(concealer) => Grids::is_used(concealer, service),
        }
    }
}
