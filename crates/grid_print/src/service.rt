ghost use Rattle.std.specs.Prelude.{◌≡◌, ◌==◌, not, ◌<◌, ◌+◌, if◌then◌else◌, List, [], None, Some, MatchOption, IfSome, IsTrue, is_some, length, ℕ, Option};
ghost use Rattle.std.specs.List.{flat_map};
ghost use Rattle.dtvcc_windows.specs.Showing.{ShownWindow};
ghost use Rattle.dtvcc_services.specs.Numbers.{IsService};
ghost use Rattle.dtvcc_windows.specs.Objects.{is_live, state_of, window_of};
ghost use Rattle.dtvcc_windows.specs.Showing.{as_shown, shown};
ghost use Rattle.text_output.specs.Pages.{Adds, WritesSome, page};
ghost use Rattle.grid_print.specs.WindowTexts.{service_text, shown_ids, window_text};
ghost use Rattle.grid_print.specs.GridTexts.{service_texts};

use crate::write_window;
use cc_base::Sink;
use cc_receiver::Grids;
use dtvcc_services::SERVICES;
use dtvcc_windows::Window;
use text_output::Gathered;

/// The windows 0 to 7 of a service (CTA-708-E).
pub(crate) const WINDOWS: u8 = 8;

/// The service at a place among all.
pub(crate) fn service_at(place: usize) -> u8
    requires { place < 63 }
    ensures number { result ≡ place + 1 }
    ensures service { IsService result }
{
    place as u8 + 1
}

/// The window of an id of a service, where it is shown.
pub(crate) fn seen<G: Grids>(r: &G, service: u8, id: u8) -> Option<&Window>
    requires { IsService service }
    ensures seen { (seen : ℕ → ℕ → Option ShownWindow) → G.shows r.now seen
        → MatchOption result (seen service id ≡ None)
        (λ window. seen service id ≡ shown (window_of window.now)) }
    ensures shown { IfSome result
        (λ window. shown (window_of window.now) ≡ Some (as_shown (state_of window.now))) }
    ensures live { IfSome result (λ window. IsTrue (is_live window.now)) }
{
    match r.window(service, id) {
        Some(window) => {
            if window.is_shown() {
                Some(window)
            } else {
                None
            }
        }
        None => None,
    }
}

// Whether the window of an id of a service is shown.
fn is_seen<G: Grids>(r: &G, service: u8, id: u8) -> bool
    requires { IsService service }
    ensures { (seen : ℕ → ℕ → Option ShownWindow) → G.shows r.now seen
        → result ≡ is_some (seen service id) }
{
    match r.window(service, id) {
        Some(window) => window.is_shown(),
        None => false,
    }
}

// The number of windows of a service that are shown.
fn seen_count<G: Grids>(r: &G, service: u8) -> u32
    requires { IsService service }
    ensures { (seen : ℕ → ℕ → Option ShownWindow) → G.shows r.now seen
        → result ≡ length (shown_ids (seen service)) }
{
    let mut count = 0;
    for id in 0..WINDOWS {
        if is_seen(r, service, id) {
            count += 1;
        }
    }
    count
}

/// Writes the text of a service: its name, the number of its windows that are shown, and their texts by id.
pub(crate) fn write_service<G: Grids, O: Sink>(r: &G, service: u8, text: &mut Gathered, out: &mut O)
    requires { IsService service }
    ensures some { WritesSome (page text.old (O.written out.old) (O.faults out.old))
        (page text.new (O.written out.new) (O.faults out.new)) }
    ensures text { (seen : ℕ → ℕ → Option ShownWindow) → G.shows r.now seen
        → Adds O.written O.faults text.old out.old text.new out.new
        (service_text service (seen service)) }
{
    text.write(b"S", out);
    text.write_number(u32::from(service), out);
    text.write(b" ", out);
    text.write_number(seen_count(r, service), out);
    text.write(b"\n", out);
    write_windows(r, service, text, out);
}

// Writes the texts of a service's windows that are shown.
fn write_windows<G: Grids, O: Sink>(r: &G, service: u8, text: &mut Gathered, out: &mut O)
    requires { IsService service }
    ensures some { WritesSome (page text.old (O.written out.old) (O.faults out.old))
        (page text.new (O.written out.new) (O.faults out.new)) }
    ensures text { (seen : ℕ → ℕ → Option ShownWindow) → G.shows r.now seen
        → Adds O.written O.faults text.old out.old text.new out.new
        (flat_map (λ one. window_text one.0 one.1) (shown_ids (seen service))) }
{
    for id in 0..WINDOWS {
        if let Some(window) = seen(r, service, id) {
            write_window(id, window, text, out);
        }
    }
}

// Writes the text of a service, if a window of it is shown.
fn write_if_shown<G: Grids, O: Sink>(r: &G, service: u8, text: &mut Gathered, out: &mut O)
    requires { IsService service }
    ensures some { WritesSome (page text.old (O.written out.old) (O.faults out.old))
        (page text.new (O.written out.new) (O.faults out.new)) }
    ensures text { (seen : ℕ → ℕ → Option ShownWindow) → G.shows r.now seen
        → Adds O.written O.faults text.old out.old text.new out.new
        (if not (length (shown_ids (seen service)) == 0) then service_text service (seen service)
        else []) }
{
    if seen_count(r, service) != 0 {
        write_service(r, service, text, out);
    }
}

/// Writes the text of each service of which a window is shown.
pub(crate) fn write_shown_services<G: Grids, O: Sink>(r: &G, text: &mut Gathered, out: &mut O)
    ensures some { WritesSome (page text.old (O.written out.old) (O.faults out.old))
        (page text.new (O.written out.new) (O.faults out.new)) }
    ensures text { (seen : ℕ → ℕ → Option ShownWindow) → G.shows r.now seen
        → Adds O.written O.faults text.old out.old text.new out.new
        (service_texts (λ service. not (length (shown_ids (seen service)) == 0)) seen) }
{
    for place in 0..SERVICES {
        write_if_shown(r, service_at(place), text, out);
    }
}
