ghost use Rattle.std.specs.Prelude.{◌≡◌, ◌≤◌, ◌<◌, ◌^◌, ◌+◌, ◌++◌, ℕ, List, [], ◌∷◌, IfOk};
ghost use Rattle.cc_base.specs.Steps.{IsTaken, step_parts};
ghost use Rattle.cc_base.specs.Syntax.{open_behind};
ghost use Rattle.cc_data.specs.declared.triplet.Triplet.{Triplet as TripletOf};
ghost use Rattle.channel_packets.specs.declared.parts.PacketPart.{PacketPart as Piece};
ghost use Rattle.dtvcc_services.specs.Objects.{Events, Leads, all_ticks};
ghost use Rattle.service_blocks.specs.Channels.{IsHeard, IsHeardBehind, heard_behind};
ghost use Rattle.service_blocks.specs.Readers.{HasRead};
ghost use Rattle.service_blocks.specs.Reading.{block_syntax, judge_part};
ghost use Rattle.services_files.specs.Events.{event_of, events_of};

use crate::channel::{Channel, is_of_channel};
use cc_base::{Rate, Step};
use cc_data::Triplet;
use channel_packets::PacketPart;
use dtvcc_services::Services;
use dtvcc_windows::Window;
use service_blocks::BlockPart;
use std::alloc::{AllocError, Global};

/// This many frames can be counted.
const MOST_FRAMES: u64 = 4_294_967_295;

/// The services of DTVCC, and the readers of the caption channel that brings them their bytes, frame by frame (CTA-708-E, sections
/// 5 to 7).
#[derive(Drop)]
pub struct Served {
    pub(crate) channel: Channel,
    pub(crate) services: Services,
}

// A service takes its byte, or all are reset.
fn give(services: &mut Services, part: BlockPart)
    requires { all_ticks services.old < 2 ^ 32 }
    ensures leads { (earlier last : Events) → Leads earlier last services.old
        → Leads earlier (λ service. last service ++ event_of service part) services.new }
    ensures frames { all_ticks services.new ≡ all_ticks services.old }
{
    match part {
        BlockPart::Reset => services.reset(),
        BlockPart::Byte { service, value } => services.byte(service, value),
    }
}

impl Served {
    ghost use Rattle.services_files.specs.Screens.{empty_screen};
    ghost use Rattle.std.specs.Prelude.{None, IfSome, IsTrue, MatchOption, false};
    ghost use Rattle.services_files.specs.Meaning.{Reset};
    ghost use Rattle.dtvcc_services.specs.Numbers.{IsService};
    ghost use Rattle.dtvcc_services.specs.Objects.{screen_at, served_now, service_behind};
    ghost use Rattle.services_files.specs.Shown.{LooksSame};
    ghost use Rattle.dtvcc_windows.specs.Objects.{is_live, window_of};
    ghost use Rattle.cc_receiver.specs.Serving.{HasServed, ServesFrames, followed_by, given_by};

    /// Before the first frame. All memory that it ever takes is taken here.
    pub fn new(alloc: Global) -> Result<Served, AllocError>
        ensures { IfOk result (ServesFrames []) }
    {
        Ok(Served {
            channel: Channel::new(),
            services: Services::new(alloc)?,
        })
    }

    /// A frame of a rate brings its triplets. Fewer than 4,294,967,295 frames came before; a further one changes nothing.
    pub fn frame(&mut self, rate: Rate, triplets: &[Triplet])
        ensures served { (before : List TripletOf) (earlier last : Events)
            → HasServed before earlier last self.old
            → all_ticks self.old.services < 4294967295 → IsHeard (before ++ triplets.now)
            → HasServed (before ++ triplets.now) (followed_by earlier last)
            (given_by rate before triplets.now) self.new }
        ensures frames { all_ticks self.old.services < 4294967295
            → all_ticks self.new.services ≡ all_ticks self.old.services + 1 }
    {
        if self.services.frames() >= MOST_FRAMES {
            return;
        }
        self.services.tick(rate);
        for triplet in triplets {
            self.triplet(*triplet);
        }
    }

    /// Resets all services, and forgets the channel packets: one that is open stays unfinished, and the next one makes no gap (CTA-708-E,
    /// section 5 and Reset). The frames that came still count.
    pub fn reset(&mut self)
        ensures served { (before : List TripletOf) (earlier last : Events)
            → HasServed before earlier last self.old
            → HasServed [] earlier (λ service. last service ++ Reset ∷ []) self.new }
        ensures frames { all_ticks self.new.services ≡ all_ticks self.old.services }
    {
        self.channel = Channel::new();
        self.services.reset();
    }

    /// The window of an id of a service, 1 to 63, after the last frame, where there is one (CTA-708-E).
    pub fn window(&self, service: u8, id: u8) -> Option<&Window>
        requires { IsService service }
        ensures window { (triplets : List TripletOf) (earlier last : Events)
            → HasServed triplets earlier last self.now
            → let windows = (screen_at (served_now earlier last service)).windows in
            MatchOption result (windows id ≡ None) (λ window. window_of window.now ≡ windows id) }
        ensures live { IfSome result (λ window. IsTrue (is_live window.now)) }
    {
        self.services.window(service, id)
    }

    /// Whether a service, 1 to 63, may have a window after the last frame: where it says no, it has none (CTA-708-E).
    pub fn is_used(&self, service: u8) -> bool
        requires { IsService service }
        ensures { (triplets : List TripletOf) (earlier last : Events)
            → HasServed triplets earlier last self.now
            → result ≡ false → screen_at (served_now earlier last service) ≡ empty_screen }
    {
        self.services.is_used(service)
    }

    /// Whether something that is seen of a service may have changed in the last frame: where it says no, all windows of all services are
    /// seen as they were before it (CTA-708-E).
    pub fn is_touched(&self) -> bool
        ensures { (triplets : List TripletOf) (earlier last : Events)
            → HasServed triplets earlier last self.now → result ≡ false
            → (service : ℕ) → IsService service
            → LooksSame (screen_at (service_behind earlier service))
            (screen_at (served_now earlier last service)) }
    {
        self.services.is_touched()
    }

    // Takes the next triplet of the last frame.
    fn triplet(&mut self, triplet: Triplet)
        requires { all_ticks self.old.services < 2 ^ 32 }
        ensures served { (before : List TripletOf) (earlier last : Events)
            → HasServed before earlier last self.old → IsHeardBehind before (triplet ∷ [])
            → HasServed (before ++ triplet ∷ []) earlier
            (λ service. last service
            ++ events_of service (heard_behind before (triplet ∷ []))) self.new }
        ensures frames { all_ticks self.new.services ≡ all_ticks self.old.services }
    {
        if !is_of_channel(triplet) {
            return;
        }
        match self.channel.packets.step(triplet) {
            Step::Nothing | Step::Refuse(_) => {}
            Step::One(piece) => self.piece(piece),
            Step::Two(first, second) => {
                self.piece(first);
                self.piece(second);
            }
        }
    }

    // Takes the next part of a channel packet.
    fn piece(&mut self, piece: PacketPart)
        requires { all_ticks self.old.services < 2 ^ 32 }
        ensures read { (pieces : List Piece) → HasRead pieces self.old.channel.blocks
            → IsTaken (judge_part (open_behind block_syntax pieces) piece)
            → HasRead (pieces ++ piece ∷ []) self.new.channel.blocks }
        ensures leads { (pieces : List Piece) (earlier last : Events)
            → HasRead pieces self.old.channel.blocks → Leads earlier last self.old.services
            → Leads earlier (λ service. last service
            ++ events_of service (step_parts
            (judge_part (open_behind block_syntax pieces) piece))) self.new.services }
        ensures packets { self.new.channel.packets ≡ self.old.channel.packets }
        ensures frames { all_ticks self.new.services ≡ all_ticks self.old.services }
    {
        match self.channel.blocks.step(piece) {
            Step::Nothing | Step::Refuse(_) => {}
            Step::One(part) => give(&mut self.services, part),
            Step::Two(first, second) => {
                give(&mut self.services, first);
                give(&mut self.services, second);
            }
        }
    }
}
