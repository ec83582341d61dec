ghost use Rattle.std.specs.Prelude.{IfErr, IfOk, MatchResult};
ghost use Rattle.cue_lists.specs.Rules.{IsRuled};
ghost use Rattle.dual_plans.specs.DualAnswer.{IsDualFault, IsPlanned};
ghost use Rattle.dual_plans.specs.DualParts.{AreStarted, IsFieldsFault, IsFirstFault, IsFirstPlaced, IsSecondFault, IsSecondPlaced};
ghost use Rattle.dual_plans.specs.FieldPlaces.{GoTogether};
ghost use Rattle.dual_plans.specs.OtherList.{AreAlike};
ghost use Rattle.frame_carrier.specs.OverlaidFrames.{frames_under, overlay_of};

use crate::fault::DualFault;
use crate::field::{StartedField, first_field, second_field};
use crate::other_list::{OtherField, other_field};
use crate::placed::placed_lane;
use crate::{Clash, Dual, SecondLanes, dual, field_clash};
use cue_lists::CueList;
use dual_fields::Place;
use frame_carrier::{Plan, fault_beside, placed_services};
use lanes::{PlacedService, PlanFault};
use line21_codes::Chan;
use std::alloc::{AllocError, Global};

/// Both fields with the units of the first list, and its services.
#[derive(Drop)]
pub struct FirstPlaced {
    pub one: StartedField,
    pub two: StartedField,
    pub services: Vec<PlacedService>,
}

/// Where the units of the second list stand in both fields.
#[derive(Drop)]
pub struct SecondPlaced {
    pub one: Vec<Place>,
    pub two: Vec<Place>,
}

/// Plans two lists that keep the rules: the first on CC1, CC3 and its services, the second on CC2 and CC4 beside it. They are refused
/// in this order: OtherList if the second list has another rate, another number of frames or a share, and FieldClash if events of
/// both hold one slot of a field. Then comes NoRoom if a cue of the first list has no placement, and NoRoomBeside if one of the
/// second has none beside the first list's. Memory may run out before any of these is found.
pub fn plan_dual(alloc: Global, first: &CueList, second: &CueList) -> Result<Dual, DualFault>
    requires first { IsRuled first.now }
    requires second { IsRuled second.now }
    ensures { MatchResult result
        (λ dual. IsPlanned first.now second.now (frames_under dual) (overlay_of dual))
        (IsDualFault first.now second.now) }
{
    match other_field(first, second) {
        Some(OtherField { rec, field }) => Err(DualFault::OtherList { rec, field }),
        None => plan_alike(alloc, first, second),
    }
}

// Plans two lists of which the second is as the first asks.
fn plan_alike(alloc: Global, first: &CueList, second: &CueList) -> Result<Dual, DualFault>
    requires first { IsRuled first.now }
    requires second { IsRuled second.now }
    requires alike { AreAlike first.now second.now }
    ensures { MatchResult result
        (λ dual. IsPlanned first.now second.now (frames_under dual) (overlay_of dual))
        (IsDualFault first.now second.now) }
{
    match field_clash(alloc, first, second) {
        Ok(None) => plan_both(alloc, first, second),
        Ok(Some(Clash { second, first })) => Err(DualFault::FieldClash { second, first }),
        Err(error) => Err(DualFault::Memory(error)),
    }
}

// Plans two lists that go together.
fn plan_both(alloc: Global, first: &CueList, second: &CueList) -> Result<Dual, DualFault>
    requires { GoTogether first.now second.now }
    ensures { MatchResult result
        (λ dual. IsPlanned first.now second.now (frames_under dual) (overlay_of dual))
        (IsDualFault first.now second.now) }
{
    let placed = match place_first(alloc, first, second) {
        Ok(placed) => placed,
        Err(PlanFault::NoRoom(cue)) => return Err(DualFault::NoRoom(cue)),
        Err(PlanFault::Memory(error)) => return Err(DualFault::Memory(error)),
    };
    let seconds = match place_second(alloc, first, second, &placed) {
        Ok(seconds) => seconds,
        Err(PlanFault::NoRoom(cue)) => return Err(DualFault::NoRoomBeside(cue)),
        Err(PlanFault::Memory(error)) => return Err(DualFault::Memory(error)),
    };
    match joined(alloc, first, second, placed, &seconds) {
        Ok(dual) => Ok(dual),
        Err(error) => Err(DualFault::Memory(error)),
    }
}

// Places the units of the first list in both fields and its services', or names its least cue without a placement.
fn place_first(alloc: Global, first: &CueList, second: &CueList) -> Result<FirstPlaced, PlanFault>
    requires { GoTogether first.now second.now }
    ensures placed { IfOk result (IsFirstPlaced first.now second.now) }
    ensures fault { IfErr result (IsFirstFault first.now second.now) }
{
    let services = placed_services(alloc, first);
    match place_fields(alloc, first, second) {
        Ok((one, two)) => Ok(FirstPlaced {
            one,
            two,
            services: services?,
        }),
        Err(fault) => Err(fault_beside(fault, services.err())),
    }
}

// Places the units of the first list in both fields.
fn place_fields(
    alloc: Global,
    first: &CueList,
    second: &CueList,
) -> Result<(StartedField, StartedField), PlanFault>
    requires { GoTogether first.now second.now }
    ensures started { IfOk result (λ fields. AreStarted first.now second.now fields.0 fields.1) }
    ensures fault { IfErr result (IsFieldsFault first.now second.now) }
{
    let one = first_field(alloc, first, second, Chan::Cc1);
    let two = first_field(alloc, first, second, Chan::Cc3);
    match one {
        Ok(one) => Ok((one, two?)),
        Err(fault) => Err(fault_beside(fault, two.err())),
    }
}

// Places the units of the second list in both fields beside the first list's, or names its least cue without a placement there.
fn place_second(
    alloc: Global,
    first: &CueList,
    second: &CueList,
    placed: &FirstPlaced,
) -> Result<SecondPlaced, PlanFault>
    requires together { GoTogether first.now second.now }
    requires placed { IsFirstPlaced first.now second.now placed.now }
    ensures placed { IfOk result (IsSecondPlaced first.now second.now placed.now) }
    ensures fault { IfErr result (IsSecondFault first.now second.now placed.now) }
{
    let one = second_field(alloc, first, second, Chan::Cc1, &placed.one);
    let two = second_field(alloc, first, second, Chan::Cc3, &placed.two);
    match one {
        Ok(one) => Ok(SecondPlaced { one, two: two? }),
        Err(fault) => Err(fault_beside(fault, two.err())),
    }
}

// The frames of all lanes.
fn joined(
    alloc: Global,
    first: &CueList,
    second: &CueList,
    placed: FirstPlaced,
    seconds: &SecondPlaced,
) -> Result<Dual, AllocError>
    requires together { GoTogether first.now second.now }
    requires placed { IsFirstPlaced first.now second.now placed }
    requires seconds { IsSecondPlaced first.now second.now placed seconds.now }
    ensures { IfOk result (λ dual. IsPlanned first.now second.now (frames_under dual)
        (overlay_of dual)) }
{
    let FirstPlaced { one, two, services } = placed;
    let first_one = placed_lane(alloc, one.one, &one.places)?;
    let first_two = placed_lane(alloc, two.one, &two.places)?;
    let second_one = placed_lane(alloc, one.two, &seconds.one)?;
    let second_two = placed_lane(alloc, two.two, &seconds.two)?;
    let plan = Plan::new(first_one, first_two, services, first.rate(), first.frames());
    let lanes = SecondLanes::new(second_one, second_two, second.rate());
    Ok(dual(plan, lanes))
}
