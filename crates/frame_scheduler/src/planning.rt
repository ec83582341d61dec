ghost use Rattle.std.specs.Prelude.{◌≡◌, ℕ, ◌≤◌, All, IfErr, IfOk, length};
ghost use Rattle.cue_lists.specs.Cues.{IsCueFormed};
ghost use Rattle.cue_lists.specs.Listing.{IsFormed, most_cues};
ghost use Rattle.cue_lists.specs.Rules.{IsRuled};
ghost use Rattle.dtvcc_author.specs.Captions.{service_captions};
ghost use Rattle.dtvcc_author.specs.Kept.{AreKept};
ghost use Rattle.lanes.specs.ServiceChunks.{service_chunks};
ghost use Rattle.lanes.specs.ServicePlan.{IsServiceFault, IsServicePlan};
ghost use Rattle.cue_lists.specs.Cadences.{cadence_of};
ghost use Rattle.lanes.specs.CueSlots.{cues_in_slots};
ghost use Rattle.lanes.specs.CueEvents.{channel_events};
ghost use Rattle.lanes.specs.EventOrder.{AreApart};
ghost use Rattle.lanes.specs.ChannelLane.{channel_chunks};
ghost use Rattle.frame_scheduler.specs.Frames.{AreFieldsPlanned, PlanAnswer};
ghost use Rattle.lanes.specs.FieldPlan.{IsFieldFault, IsFieldPlan};
ghost use Rattle.frame_scheduler.specs.LaneSets.{IsFaultIn, IsField, earlier_fault, fault_beside};
ghost use Rattle.frame_scheduler.specs.ServicePlans.{AreServices, IsBeside};

use crate::frames::Plan;
use cc_base::Rate;
use cue_lists::Cadence;
use lanes::{
    Cue, CueList, FieldLane, LAST_SERVICE, PlacedField, PlacedService, PlanFault, ServiceLane,
    captions, channel_chunks, events, service_chunks,
};
use line21_codes::Chan;
use std::alloc::Global;

/// Places the units of a cue list that keeps the rules: each in the first slot or frame that its cue, the units before it in its
/// lane and the lane's events allow. NoRoom has the first cue whose units, with the earlier units of its lane, have no
/// placement at all.
pub fn plan(alloc: Global, list: &CueList) -> Result<Plan, PlanFault>
    requires { IsRuled list.now }
    ensures { PlanAnswer list.now result }
{
    let services = placed_services(alloc, list);
    match placed_fields(alloc, list) {
        Ok((one, two)) => Ok(Plan::new(one, two, services?, list.rate(), list.frames())),
        Err(fault) => Err(fault_beside(fault, services.err())),
    }
}

/// Places the units of both fields.
fn placed_fields(alloc: Global, list: &CueList) -> Result<(PlacedField, PlacedField), PlanFault>
    requires { IsRuled list.now }
    ensures placed { IfOk result (λ fields. AreFieldsPlanned list.now fields.0 fields.1) }
    ensures fault { IfErr result (IsFaultIn IsField list.now) }
{
    let one = placed_channel(alloc, list.cues(), Chan::Cc1, list.rate());
    let two = placed_channel(alloc, list.cues(), Chan::Cc3, list.rate());
    match one {
        Ok(one) => Ok((one, two?)),
        Err(fault) => Err(fault_beside(fault, two.err())),
    }
}

/// Places the units of each service of which the list has a share.
pub fn placed_services(alloc: Global, list: &CueList) -> Result<Vec<PlacedService>, PlanFault>
    requires { IsRuled list.now }
    ensures services { AreServices list.now 7 result }
    ensures formed { IsFormed list.now }
{
    let cues = list.cues();
    let rate = list.rate();
    let mut services = Ok(Vec::new(alloc));
    for service in 1..=LAST_SERVICE {
        if let Some(share) = list.share(service) {
            services = beside(services, placed_service(alloc, rate, cues, service, share));
        }
    }
    services
}

/// Places the units of the cues of a service that has this share of each frame, at a rate.
fn placed_service(
    alloc: Global,
    rate: Rate,
    cues: &[Cue],
    service: u8,
    share: u8,
) -> Result<PlacedService, PlanFault>
    requires formed { All IsCueFormed cues.now }
    requires few { length cues.now ≤ most_cues }
    requires kept { (frames : ℕ) × AreKept rate frames (service_captions rate service cues.now) }
    requires least { 8 ≤ share }
    requires most { share ≤ 31 }
    ensures placed { IfOk result
        (IsServicePlan service share (service_captions rate service cues.now)
        (service_chunks rate service cues.now)) }
    ensures fault { IfErr result
        (IsServiceFault share (service_captions rate service cues.now)
        (service_chunks rate service cues.now)) }
{
    let captions = match captions(alloc, rate, cues, service) {
        Ok(captions) => captions,
        Err(error) => return Err(PlanFault::Memory(error)),
    };
    let chunks = match service_chunks(alloc, rate, cues, service) {
        Ok(chunks) => chunks,
        Err(error) => return Err(PlanFault::Memory(error)),
    };
    let lane = ServiceLane {
        service,
        share,
        captions,
        chunks,
    };
    lane.place(alloc)
}

/// One more lane beside others: all of them, or the fault of the earlier cue.
fn beside(
    services: Result<Vec<PlacedService>, PlanFault>,
    other: Result<PlacedService, PlanFault>,
) -> Result<Vec<PlacedService>, PlanFault>
    ensures { IsBeside services other result }
{
    match services {
        Ok(mut services) => {
            if let Err(error) = services.push(other?) {
                return Err(PlanFault::Memory(error.into()));
            }
            Ok(services)
        }
        Err(fault) => Err(fault_beside(fault, other.err())),
    }
}

/// The fault of one lane, beside another's, if it has one.
pub fn fault_beside(one: PlanFault, two: Option<PlanFault>) -> PlanFault
    ensures { result ≡ fault_beside one two }
{
    match two {
        Some(two) => earlier_fault(one, two),
        None => one,
    }
}

/// Of the faults of two lanes, the earlier cue's; or out of memory, where a lane has that.
fn earlier_fault(one: PlanFault, two: PlanFault) -> PlanFault
    ensures { result ≡ earlier_fault one two }
{
    match (one, two) {
        (PlanFault::NoRoom(one), PlanFault::NoRoom(two)) => PlanFault::NoRoom(one.min(two)),
        (PlanFault::NoRoom(_), memory) => memory,
        (memory, _) => memory,
    }
}

/// Places the units of the cues on a channel in the slots of its field, at a rate.
fn placed_channel(
    alloc: Global,
    cues: &[Cue],
    channel: Chan,
    rate: Rate,
) -> Result<PlacedField, PlanFault>
    requires formed { All IsCueFormed cues.now }
    requires few { length cues.now ≤ most_cues }
    requires apart { AreApart
        (channel_events channel (cues_in_slots (cadence_of rate channel) cues.now)) }
    ensures placed { IfOk result
        (IsFieldPlan (channel_events channel (cues_in_slots (cadence_of rate channel) cues.now))
        (channel_chunks channel (cues_in_slots (cadence_of rate channel) cues.now))) }
    ensures fault { IfErr result
        (IsFieldFault (channel_events channel (cues_in_slots (cadence_of rate channel) cues.now))
        (channel_chunks channel (cues_in_slots (cadence_of rate channel) cues.now))) }
{
    let cadence = Cadence::of(rate, channel);
    let chunks = match channel_chunks(alloc, cues, channel, cadence) {
        Ok(chunks) => chunks,
        Err(error) => return Err(PlanFault::Memory(error)),
    };
    let events = match events(alloc, cues, channel, cadence) {
        Ok(events) => events,
        Err(error) => return Err(PlanFault::Memory(error)),
    };
    (FieldLane { chunks, events }).place(alloc)
}
