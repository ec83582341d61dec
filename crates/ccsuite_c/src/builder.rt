ghost use Rattle.std.specs.Prelude.{◌≡◌, ℕ, None, Some, IfErr, IfOk};
ghost use Rattle.cue_lists.specs.Listing.{Listing};
ghost use Rattle.caption_streams.specs.Planned.{Placement};
ghost use Rattle.caption_streams.specs.Builders.{Begins, IsBuilding, cc_data_of, frame_in, frames_to_come, packet_of};
ghost use Rattle.caption_streams.specs.declared.building.Building.{Building as BuildingOf};
ghost use Rattle.ccsuite_c.specs.Builders.{NextAnswer, Opening, OverAnswer, Refuses};
ghost use Rattle.ccsuite_c.specs.Codes.{closed_code};
ghost use Rattle.ccsuite_c.specs.Handles.{HasNoBuilder, StaysSo, state_in};
ghost use Rattle.ccsuite_c.specs.States.{IsNoBuilder, WasFed};
ghost use Rattle.ccsuite_c.specs.declared.state.State.TheVariants as held;

use crate::handle::Handle;
use crate::state::State;
use crate::told::{CLOSED, tell_next};
use caption_streams::{Building, FrameForm};
use command_base::Status;
use reported_runs::{Report, report_of};
use std::alloc::Global;

/// Opens a builder of a cue list, at its frame 0; what the handle held before is freed. A list that is refused leaves it closed.
#[unsafe(no_mangle)]
pub extern "C" fn ccsuite_builder_open(
    alloc: Global,
    list: &[u8],
    builder: &mut Handle,
    report: &mut Report,
) -> u32
    ensures opening { Opening list.now (state_in builder.new) report.new }
    ensures status { result ≡ report.new.status }
{
    let _ = builder.take(alloc);
    match open(alloc, list) {
        Ok(building) => {
            *builder = Handle::of(building);
            *report = report_of(Status::Ok, 0);
        }
        Err(status) => *report = report_of(status, 0),
    }
    report.status
}

// The builder of a list, at its frame 0.
fn open(alloc: Global, list: &[u8]) -> Result<Box<State>, Status>
    ensures begins { IfOk result
        (λ state. (b : BuildingOf) × (state.value ≡ held.Building b) × Begins list.now b) }
    ensures fed { IfOk result (λ state. WasFed state.value) }
    ensures refused { IfErr result (Refuses list.now) }
{
    let building = Building::read(alloc, list)?;
    match Box::new(alloc, State::Building(building)) {
        Ok(state) => Ok(state),
        Err(_) => Err(Status::Memory),
    }
}

/// Writes the ancillary packet of the next frame to the front of `out`, and the number of its bytes to `written`: 0. Else nothing is
/// written: 32 where there is no open builder, 33 after the last frame. It answers 3 where the packet has more bytes than `out`, and then
/// `written` is how many, and the frame is still the next.
#[unsafe(no_mangle)]
pub extern "C" fn ccsuite_builder_next(
    alloc: Global,
    builder: &mut Handle,
    out: &mut [u8],
    written: &mut usize,
) -> u32
    ensures next { (b : BuildingOf) (list : Listing) (placed : Placement) (frame : ℕ)
        → state_in builder.old ≡ Some (held.Building b)
        → IsBuilding list placed frame b
        → NextAnswer list placed frame (packet_of list placed frame)
        b out.old out.new result written.new (state_in builder.new) }
    ensures over { (b : BuildingOf) → state_in builder.old ≡ Some (held.Building b)
        → frames_to_come b ≡ 0
        → OverAnswer b out.old out.new result written.new (state_in builder.new) }
    ensures closed { HasNoBuilder (state_in builder.old)
        → (result ≡ closed_code)
        × StaysSo out.old out.new written.new (state_in builder.old) (state_in builder.new) }
{
    next_of(alloc, builder, FrameForm::Words, out, written)
}

/// Writes the triplets of cc_data of the next frame to the front of `out`, three bytes each, as `ccsuite_builder_next` writes its packet.
#[unsafe(no_mangle)]
pub extern "C" fn ccsuite_builder_next_cc_data(
    alloc: Global,
    builder: &mut Handle,
    out: &mut [u8],
    written: &mut usize,
) -> u32
    ensures next { (b : BuildingOf) (list : Listing) (placed : Placement) (frame : ℕ)
        → state_in builder.old ≡ Some (held.Building b)
        → IsBuilding list placed frame b
        → NextAnswer list placed frame (cc_data_of list placed frame)
        b out.old out.new result written.new (state_in builder.new) }
    ensures over { (b : BuildingOf) → state_in builder.old ≡ Some (held.Building b)
        → frames_to_come b ≡ 0
        → OverAnswer b out.old out.new result written.new (state_in builder.new) }
    ensures closed { HasNoBuilder (state_in builder.old)
        → (result ≡ closed_code)
        × StaysSo out.old out.new written.new (state_in builder.old) (state_in builder.new) }
{
    next_of(alloc, builder, FrameForm::CcData, out, written)
}

// Writes the next frame of what a handle holds to the front of `out`.
fn next_of(
    alloc: Global,
    builder: &mut Handle,
    form: FrameForm,
    out: &mut [u8],
    written: &mut usize,
) -> u32
    ensures next { (b : BuildingOf) (list : Listing) (placed : Placement) (frame : ℕ)
        → state_in builder.old ≡ Some (held.Building b)
        → IsBuilding list placed frame b
        → NextAnswer list placed frame (frame_in form list placed frame)
        b out.old out.new result written.new (state_in builder.new) }
    ensures over { (b : BuildingOf) → state_in builder.old ≡ Some (held.Building b)
        → frames_to_come b ≡ 0
        → OverAnswer b out.old out.new result written.new (state_in builder.new) }
    ensures closed { HasNoBuilder (state_in builder.old)
        → (result ≡ closed_code)
        × StaysSo out.old out.new written.new (state_in builder.old) (state_in builder.new) }
{
    *written = 0;
    match builder.take(alloc) {
        None => CLOSED,
        Some(mut state) => {
            let code = next(&mut state, form, out, written);
            *builder = Handle::of(state);
            code
        }
    }
}

// Writes the next frame of a builder to the front of `out`.
fn next(state: &mut State, form: FrameForm, out: &mut [u8], written: &mut usize) -> u32
    requires none { written.old ≡ 0 }
    requires fed { WasFed state.old }
    ensures next { (b : BuildingOf) (list : Listing) (placed : Placement) (frame : ℕ)
        → state.old ≡ held.Building b
        → IsBuilding list placed frame b
        → NextAnswer list placed frame (frame_in form list placed frame)
        b out.old out.new result written.new (Some state.new) }
    ensures over { (b : BuildingOf) → state.old ≡ held.Building b → frames_to_come b ≡ 0
        → OverAnswer b out.old out.new result written.new (Some state.new) }
    ensures closed { IsNoBuilder state.old
        → (result ≡ closed_code)
        × StaysSo out.old out.new written.new (Some state.old) (Some state.new) }
    ensures fed { WasFed state.new }
{
    match state {
        State::Building(building) => next_on(building, form, out, written),
        _ => CLOSED,
    }
}

fn next_on(building: &mut Building, form: FrameForm, out: &mut [u8], written: &mut usize) -> u32
    ensures next { (list : Listing) (placed : Placement) (frame : ℕ)
        → IsBuilding list placed frame building.old
        → NextAnswer list placed frame (frame_in form list placed frame)
        building.old out.old out.new result written.new (Some (held.Building building.new)) }
    ensures over { frames_to_come building.old ≡ 0
        → OverAnswer building.old out.old out.new result written.new
        (Some (held.Building building.new)) }
{
    tell_next(building.next(form, out), written)
}

/// Closes a builder, and frees what it holds; a closed one, and one of another kind, stays as it is.
#[unsafe(no_mangle)]
pub extern "C" fn ccsuite_builder_close(alloc: Global, builder: &mut Handle)
    ensures closed { (b : BuildingOf) → state_in builder.old ≡ Some (held.Building b)
        → state_in builder.new ≡ None }
    ensures other { HasNoBuilder (state_in builder.old)
        → state_in builder.new ≡ state_in builder.old }
{
    if let Some(state) = builder.take(alloc) {
        if state.building().is_none() {
            *builder = Handle::of(state);
        }
    }
}
