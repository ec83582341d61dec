ghost use Rattle.std.specs.Prelude.{◌≡◌, MatchResult};
ghost use Rattle.cue_lists.specs.Rules.{IsRuled};
ghost use Rattle.frame_carrier.specs.OverlaidFrames.{frames_under, overlay_of};
ghost use Rattle.xds_frames.specs.PlanAnswer.{IsPlanned, IsXdsPlanFault, fault_of_plan};

use crate::fault::XdsPlanFault;
use crate::list_packets::list_packets;
use crate::packets::Packets;
use crate::room::first_without_room;
use cue_lists::CueList;
use frame_carrier::{Overlaid, Plan, plan};
use lanes::PlanFault;
use std::alloc::Global;
use xds_lists::XdsList;

/// The frames of a plan with packets in the free slots of field 2.
pub type XdsFrames = Overlaid<Plan, Packets>;

/// Plans a cue list that keeps the rules, and packets beside its captions. Refused, in this order, where a cue has no placement (NoRoom),
/// and where the end pair of a packet finds no free slot in the list's frames (NoXdsRoom). A first round through all frames finds that.
/// Memory may run out before either is found.
pub fn plan_xds(alloc: Global, list: &CueList, packets: XdsList) -> Result<XdsFrames, XdsPlanFault>
    requires { IsRuled list.now }
    ensures { MatchResult result
        (λ frames. IsPlanned list.now packets (frames_under frames) (overlay_of frames))
        (IsXdsPlanFault list.now packets) }
{
    let round = match plan(alloc, list) {
        Ok(plan) => plan,
        Err(fault) => return Err(of_plan(fault)),
    };
    let mut laid = match list_packets(alloc, list, packets) {
        Ok(laid) => laid,
        Err(error) => return Err(XdsPlanFault::Memory(error)),
    };
    if let Some(packet) = first_without_room(round, &mut laid) {
        return Err(XdsPlanFault::NoXdsRoom(packet));
    }
    match plan(alloc, list) {
        Ok(plan) => Ok(Overlaid::new(plan, laid)),
        Err(fault) => Err(of_plan(fault)),
    }
}

/// The fault of a cue list that has no plan by itself.
fn of_plan(fault: PlanFault) -> XdsPlanFault
    ensures { result ≡ fault_of_plan fault }
{
    match fault {
        PlanFault::Memory(error) => XdsPlanFault::Memory(error),
        PlanFault::NoRoom(cue) => XdsPlanFault::NoRoom(cue),
    }
}
