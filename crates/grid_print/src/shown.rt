ghost use Rattle.std.specs.Prelude.{◌≡◌, ℕ, List, Option, if◌then◌else◌, [], ◌∷◌, None, false, IfOk, vec_len, length};
ghost use Rattle.std.specs.List.{list_any};
ghost use Rattle.dtvcc_windows.specs.Showing.{ShownWindow};
ghost use Rattle.cdp_packets.specs.Packets.{Frame};
ghost use Rattle.cc_receiver.specs.ReceivedServices.{received_windows};
ghost use Rattle.cc_receiver.specs.Receivers.{frame_count};
ghost use Rattle.line21_screen.specs.Differences.{grid_differs};
ghost use Rattle.line21_screen.specs.Objects.{grid_in};
ghost use Rattle.text_output.specs.Pages.{Adds, WritesSome, page};
ghost use Rattle.grid_print.specs.WindowTexts.{service_text};
ghost use Rattle.grid_print.specs.GridTexts.{all_services, channel_texts, channels, grid_text};
ghost use Rattle.dtvcc_services.specs.Numbers.{IsService};
ghost use Rattle.grid_print.specs.Kept.{KeepsServices, changed_places, seen_at};
ghost use Rattle.grid_print.specs.Differing.{TellsDifference};

use crate::changed::{Changed, service_bits};
use crate::differing::Differing;
use crate::kept::Kept;
use crate::service::{service_at, write_service};
use crate::text::{write_frame, write_grid};
use cc_base::{Put, Sink};
use cc_receiver::{Grids, Receiver, Touched};
use dtvcc_services::SERVICES;
use line21_codes::Chan;
use line21_screen::Memory;
use std::alloc::{AllocError, Global};
use text_output::Gathered;

/// The grids of CC1 to CC4 and the windows of the services 1 to 63 that were shown last.
///
/// All memory that it ever takes is taken by `new`.
#[derive(Drop)]
pub struct Shown {
    cc1: Memory,
    cc2: Memory,
    cc3: Memory,
    cc4: Memory,
    services: Vec<Kept>,
    ghost count: { vec_len services ≡ 63 },
}

impl Shown {
    ghost use Rattle.std.specs.Prelude.{◌<◌, ◌+◌, ◌++◌, true};
    ghost use Rattle.cc_base.specs.Streams.{PutCause, Puts};
    ghost use Rattle.line21_screen.specs.Grid.{empty_grid};
    ghost use Rattle.grid_print.specs.GridTexts.{changes_text, frame_line, screens_differ, service_differs};
    ghost use Rattle.grid_print.specs.Changed.{HaveChanged};
    ghost use Rattle.grid_print.specs.Differing.{TellsChannels};
    ghost use Rattle.grid_print.specs.Kept.{changed_at};
    ghost use Rattle.grid_print.specs.Shown.{last_grid, last_shown};
    ghost use Rattle.grid_print.specs.Screens.{HaveSameWindows, LookAlike, IsBehind, received_screens, screens_of};

    /// Nothing was shown: all grids are empty, and no window is shown. The error comes if memory for them isn't found.
    pub fn new(alloc: Global) -> Result<Shown, AllocError>
        ensures grids { IfOk result (λ made. (last_shown made).grids ≡ (λ chan. empty_grid)) }
        ensures windows { IfOk result
            (λ made. (service id : ℕ) → (last_shown made).windows service id ≡ None) }
    {
        Ok(Shown {
            cc1: Memory::new(alloc)?,
            cc2: Memory::new(alloc)?,
            cc3: Memory::new(alloc)?,
            cc4: Memory::new(alloc)?,
            services: no_services(alloc)?,
        })
    }

    /// Writes the text of what changed from the screens that were shown last, which are the ones before the last frame, to this frame's,
    /// of whatever shows them. It is empty where nothing changed; this frame's screens are then the ones that were shown last. Where
    /// the frame didn't touch the services, what is seen of them isn't compared.
    pub fn write_changes_of<G: Grids + Touched, O: Sink>(
        &mut self,
        r: &G,
        frame: u64,
        text: &mut Gathered,
        out: &mut O,
    )
        requires { G.has_frame r.now }
        ensures some { WritesSome (page text.old (O.written out.old) (O.faults out.old))
            (page text.new (O.written out.new) (O.faults out.new)) }
        ensures text { (was seen : ℕ → ℕ → Option ShownWindow) → G.turned r.now was seen
            → G.shows r.now seen
            → HaveSameWindows (last_shown self.old).windows was
            → Adds O.written O.faults text.old out.old text.new out.new
            (changes_text frame (last_shown self.old) (screens_of (G.grids r.now) seen)) }
        ensures now { (was seen : ℕ → ℕ → Option ShownWindow) → G.turned r.now was seen
            → G.shows r.now seen
            → HaveSameWindows (last_shown self.old).windows was
            → LookAlike (last_shown self.new) (screens_of (G.grids r.now) seen) }
    {
        self.write_screens(r, frame, r.is_touched(), text, out)
    }

    // Writes the text of what changed from the screens that were shown last to a frame's, and keeps them. Where `touched` says no,
    // what is seen of the services is what was shown last, and isn't compared.
    fn write_screens<G: Grids, O: Sink>(
        &mut self,
        r: &G,
        frame: u64,
        touched: bool,
        text: &mut Gathered,
        out: &mut O,
    )
        ensures some { WritesSome (page text.old (O.written out.old) (O.faults out.old))
            (page text.new (O.written out.new) (O.faults out.new)) }
        ensures text { (seen : ℕ → ℕ → Option ShownWindow) → G.shows r.now seen
            → (touched ≡ false → HaveSameWindows (last_shown self.old).windows seen)
            → Adds O.written O.faults text.old out.old text.new out.new
            (changes_text frame (last_shown self.old) (screens_of (G.grids r.now) seen)) }
        ensures now { (seen : ℕ → ℕ → Option ShownWindow) → G.shows r.now seen
            → (touched ≡ false → HaveSameWindows (last_shown self.old).windows seen)
            → LookAlike (last_shown self.new) (screens_of (G.grids r.now) seen) }
    {
        let differing = self.channels_differ(r);
        let services = self.keep_services(r, touched);
        let changed = differing.any() | services;
        if changed {
            self.write_differing(r, frame, differing, services, text, out);
        }
    }

    /// Whether the screens of a frame, of whatever shows them, differ from those that were shown last, so that there is something to
    /// write. They are then the ones that were shown last.
    pub fn pass_of<G: Grids>(&mut self, r: &G) -> bool
        ensures told { (seen : ℕ → ℕ → Option ShownWindow) → G.shows r.now seen
            → result ≡ screens_differ (last_shown self.old) (screens_of (G.grids r.now) seen) }
        ensures now { (seen : ℕ → ℕ → Option ShownWindow) → G.shows r.now seen
            → LookAlike (last_shown self.new) (screens_of (G.grids r.now) seen) }
    {
        let differing = self.channels_differ(r);
        let services = self.keep_services(r, true);
        let some = differing.any();
        if some {
            self.keep_channels(r);
        }
        some | services
    }

    /// Which channels and services the screens of a frame, of whatever shows them, show otherwise than those that were shown last. They are
    /// then the ones that were shown last.
    pub fn changes_of<G: Grids>(&mut self, r: &G) -> Changed
        ensures told { (seen : ℕ → ℕ → Option ShownWindow) → G.shows r.now seen
            → HaveChanged (last_shown self.old) (screens_of (G.grids r.now) seen) result }
        ensures now { (seen : ℕ → ℕ → Option ShownWindow) → G.shows r.now seen
            → LookAlike (last_shown self.new) (screens_of (G.grids r.now) seen) }
    {
        let differing = self.channels_differ(r);
        keep_services(&mut self.services, r);
        self.keep_channels(r);
        Changed {
            channels: differing.bits(),
            services: service_bits(&self.services),
        }
    }

    // Keeps the grid of each channel.
    fn keep_channels<G: Grids>(&mut self, r: &G)
        ensures now { last_grid self.new ≡ G.grids r.now }
        ensures services { self.new.services ≡ self.old.services }
    {
        self.cc1.copy_from(r.displayed(Chan::Cc1));
        self.cc2.copy_from(r.displayed(Chan::Cc2));
        self.cc3.copy_from(r.displayed(Chan::Cc3));
        self.cc4.copy_from(r.displayed(Chan::Cc4));
    }

    // Keeps what is seen of all services, and says whether one's differs from what was kept; not so where nothing touched them.
    fn keep_services<G: Grids>(&mut self, r: &G, touched: bool) -> bool
        ensures some { (seen : ℕ → ℕ → Option ShownWindow) → G.shows r.now seen
            → (touched ≡ false → HaveSameWindows (last_shown self.old).windows seen)
            → result ≡ list_any
            (λ service. service_differs ((last_shown self.old).windows service) (seen service))
            all_services }
        ensures now { (seen : ℕ → ℕ → Option ShownWindow) → G.shows r.now seen
            → (touched ≡ false → HaveSameWindows (last_shown self.old).windows seen)
            → HaveSameWindows (last_shown self.new).windows seen }
        ensures each { (seen : ℕ → ℕ → Option ShownWindow) → G.shows r.now seen → result ≡ true
            → (place : ℕ) → place < 63
            → changed_at self.new.services.items place
            ≡ service_differs (seen_at self.old.services.items place) (seen (place + 1)) }
        ensures grids { last_grid self.new ≡ last_grid self.old }
    {
        touched && keep_services(&mut self.services, r)
    }

    // Writes the line of a frame, and the grid of each channel whose grid differs from the one that was shown last, which is kept.
    // Then it writes the text of each service whose windows changed, if one did.
    fn write_differing<G: Grids, O: Sink>(
        &mut self,
        r: &G,
        frame: u64,
        differing: Differing,
        services: bool,
        text: &mut Gathered,
        out: &mut O,
    )
        requires { TellsChannels (last_grid self.old) (G.grids r.now) differing }
        ensures some { WritesSome (page text.old (O.written out.old) (O.faults out.old))
            (page text.new (O.written out.new) (O.faults out.new)) }
        ensures text { (seen : ℕ → ℕ → Option ShownWindow) → G.shows r.now seen
            → Adds O.written O.faults text.old out.old text.new out.new
            (frame_line frame ++ channel_texts
            (λ chan. grid_differs (last_grid self.old chan) (G.grids r.now chan)) (G.grids r.now)
            ++ (if services then changed_places self.old.services.items seen else [])) }
        ensures now { last_grid self.new ≡ G.grids r.now }
        ensures services { self.new.services ≡ self.old.services }
    {
        write_frame(frame, text, out);
        self.write_channels(r, differing, text, out);
        if services {
            write_changed(&self.services, r, text, out);
        }
    }

    // Whether the grid of each channel differs from the one that was shown last.
    fn channels_differ<G: Grids>(&self, r: &G) -> Differing
        ensures { TellsChannels (last_grid self.now) (G.grids r.now) result }
    {
        let one = self.cc1.differs(r.displayed(Chan::Cc1));
        let two = self.cc2.differs(r.displayed(Chan::Cc2));
        let three = self.cc3.differs(r.displayed(Chan::Cc3));
        let four = self.cc4.differs(r.displayed(Chan::Cc4));
        Differing {
            cc1: one,
            cc2: two,
            cc3: three,
            cc4: four,
        }
    }

    // Writes the grid of each channel whose grid differs from the one that was shown last, and keeps it.
    fn write_channels<G: Grids, O: Sink>(
        &mut self,
        r: &G,
        differing: Differing,
        text: &mut Gathered,
        out: &mut O,
    )
        requires { TellsChannels (last_grid self.old) (G.grids r.now) differing }
        ensures text { Adds O.written O.faults text.old out.old text.new out.new
            (channel_texts (λ chan. grid_differs (last_grid self.old chan) (G.grids r.now chan))
            (G.grids r.now)) }
        ensures now { last_grid self.new ≡ G.grids r.now }
        ensures services { self.new.services ≡ self.old.services }
    {
        write_channel(&mut self.cc1, differing.cc1, Chan::Cc1, r, text, out);
        write_channel(&mut self.cc2, differing.cc2, Chan::Cc2, r, text, out);
        write_channel(&mut self.cc3, differing.cc3, Chan::Cc3, r, text, out);
        write_channel(&mut self.cc4, differing.cc4, Chan::Cc4, r, text, out);
    }

    /// Puts the text of what changed from the screens that were shown last to a frame's, of whatever shows them, which is
    /// empty where nothing changed. These screens are then the ones that were shown last. Failed comes only where the sink's
    /// count of faults rose, and then a front of the text was put.
    pub fn put_changes_of<G: Grids, O: Sink>(&mut self, r: &G, frame: u64, out: &mut O) -> Put
        ensures bytes { (seen : ℕ → ℕ → Option ShownWindow) → G.shows r.now seen
            → Puts (O.written out.old) (O.written out.new) result
            (changes_text frame (last_shown self.old) (screens_of (G.grids r.now) seen)) }
        ensures cause { PutCause (O.faults out.old) (O.faults out.new) result }
        ensures now { (seen : ℕ → ℕ → Option ShownWindow) → G.shows r.now seen
            → LookAlike (last_shown self.new) (screens_of (G.grids r.now) seen) }
    {
        let mut text = Gathered::new();
        text.begin();
        self.write_screens(r, frame, true, &mut text, out);
        text.finish(out)
    }

    /// Puts the text of what changed from the screens that were shown last to a receiver's at a frame, which is empty where
    /// nothing changed. These screens are then the ones that were shown last. Failed comes only where the sink's count of faults
    /// rose, and then a front of the text was put.
    pub fn put_changes<O: Sink>(&mut self, r: &Receiver, frame: u32, out: &mut O) -> Put
        ensures bytes { (frames : List Frame) → IsBehind frames r.now
            → Puts (O.written out.old) (O.written out.new) result
            (changes_text frame (last_shown self.old) (received_screens frames)) }
        ensures cause { PutCause (O.faults out.old) (O.faults out.new) result }
        ensures now { (frames : List Frame) → IsBehind frames r.now
            → LookAlike (last_shown self.new) (received_screens frames) }
    {
        self.put_changes_of(r, u64::from(frame), out)
    }

    /// Writes the text of what changed from the screens that were shown last, which are the ones before the last frame, to a
    /// receiver's at this frame. It is empty where nothing changed; the receiver's screens are then the ones that were shown last.
    /// Where the frame didn't touch the services, what is seen of them isn't compared.
    pub fn write_changes<O: Sink>(
        &mut self,
        r: &Receiver,
        frame: u32,
        text: &mut Gathered,
        out: &mut O,
    )
        requires { 0 < frame_count r.now }
        ensures some { WritesSome (page text.old (O.written out.old) (O.faults out.old))
            (page text.new (O.written out.new) (O.faults out.new)) }
        ensures text { (earlier : List Frame) (last : Frame) → IsBehind (earlier ++ last ∷ []) r.now
            → HaveSameWindows (last_shown self.old).windows (received_windows earlier)
            → Adds O.written O.faults text.old out.old text.new out.new
            (changes_text frame (last_shown self.old) (received_screens (earlier ++ last ∷ []))) }
        ensures now { (earlier : List Frame) (last : Frame) → IsBehind (earlier ++ last ∷ []) r.now
            → HaveSameWindows (last_shown self.old).windows (received_windows earlier)
            → LookAlike (last_shown self.new) (received_screens (earlier ++ last ∷ [])) }
    {
        self.write_changes_of(r, u64::from(frame), text, out)
    }

    /// Whether the screens of a receiver differ from those that were shown last, so that there is something to write. They are then
    /// the ones that were shown last.
    pub fn pass(&mut self, r: &Receiver) -> bool
        ensures told { (frames : List Frame) → IsBehind frames r.now
            → result ≡ screens_differ (last_shown self.old) (received_screens frames) }
        ensures now { (frames : List Frame) → IsBehind frames r.now
            → LookAlike (last_shown self.new) (received_screens frames) }
    {
        self.pass_of(r)
    }
}

// Of each service no window is shown.
fn no_services(alloc: Global) -> Result<Vec<Kept>, AllocError>
    ensures { IfOk result (λ services. (vec_len services ≡ 63)
        × ((place id : ℕ) → seen_at services.items place id ≡ None)) }
{
    let mut services = Vec::new(alloc);
    for _place in 0..SERVICES {
        services.push(Kept::new(alloc)?)?;
    }
    Ok(services)
}

// Writes a channel's grid and keeps it, if it differs from the one that is kept.
fn write_channel<G: Grids, O: Sink>(
    kept: &mut Memory,
    differs: bool,
    chan: Chan,
    r: &G,
    text: &mut Gathered,
    out: &mut O,
)
    requires { TellsDifference (grid_in kept.old) (G.grids r.now chan) differs }
    ensures text { Adds O.written O.faults text.old out.old text.new out.new
        (if grid_differs (grid_in kept.old) (G.grids r.now chan) then grid_text chan
        (G.grids r.now chan) else []) }
    ensures kept { grid_in kept.new ≡ G.grids r.now chan }
{
    if differs {
        let now = r.displayed(chan);
        write_grid(chan, now, text, out);
        kept.copy_from(now);
    }
}

// Keeps what is seen of all services, and says whether one's differs from what was kept.
fn keep_services<G: Grids>(services: &mut [Kept], r: &G) -> bool
    requires { length services.old ≡ 63 }
    ensures { (seen : ℕ → ℕ → Option ShownWindow) → G.shows r.now seen
        → KeepsServices seen 63 services.old services.new result }
{
    let mut changed = false;
    for place in 0..services.len() {
        let differs = services[place].keep(r, service_at(place));
        changed = changed | differs;
    }
    changed
}

// Writes the text of each service whose windows changed when they were kept last.
fn write_changed<G: Grids, O: Sink>(services: &[Kept], r: &G, text: &mut Gathered, out: &mut O)
    requires { length services.now ≡ 63 }
    ensures some { WritesSome (page text.old (O.written out.old) (O.faults out.old))
        (page text.new (O.written out.new) (O.faults out.new)) }
    ensures text { (seen : ℕ → ℕ → Option ShownWindow) → G.shows r.now seen
        → Adds O.written O.faults text.old out.old text.new out.new
        (changed_places services.now seen) }
{
    for place in 0..services.len() {
        write_if_changed(&services[place], r, service_at(place), text, out);
    }
}

// Writes the text of a service, if its windows changed when they were kept last.
fn write_if_changed<G: Grids, O: Sink>(
    kept: &Kept,
    r: &G,
    service: u8,
    text: &mut Gathered,
    out: &mut O,
)
    requires { IsService service }
    ensures some { WritesSome (page text.old (O.written out.old) (O.faults out.old))
        (page text.new (O.written out.new) (O.faults out.new)) }
    ensures text { (seen : ℕ → ℕ → Option ShownWindow) → G.shows r.now seen
        → Adds O.written O.faults text.old out.old text.new out.new
        (if kept.now.changed then service_text service (seen service) else []) }
{
    if kept.has_changed() {
        write_service(r, service, text, out);
    }
}
