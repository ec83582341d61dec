ghost use Rattle.std.specs.Prelude.{◌≡◌, ◌-◌, ◌^◌, IfOk};
ghost use Rattle.cue_lists.specs.Rules.{IsRuled};
ghost use Rattle.frame_carrier.specs.Planned.{Placement};
ghost use Rattle.xds_frames.specs.ListPackets.{laying_of};
ghost use Rattle.xds_frames.specs.Packets.{IsLaying, frames_last};

use crate::loads::Loads;
use crate::packets::Packets;
use cue_lists::CueList;
use std::alloc::{AllocError, Global};
use xds_lists::{XdsList, XdsWriter};

/// The packets of a list, to be laid over the frames of a cue list that keeps the rules, before frame 0.
pub(crate) fn list_packets(
    alloc: Global,
    list: &CueList,
    packets: XdsList,
) -> Result<Packets, AllocError>
    requires { IsRuled list.now }
    ensures stand { IfOk result
        (λ laid. (placed : Placement) → IsLaying (laying_of list.now placed packets) 0 laid) }
    ensures last { IfOk result (λ laid. frames_last laid ≡ 2 ^ 32 - 1) }
{
    let loads = Loads::of(alloc, list.cues())?;
    Ok(Packets::new(XdsWriter::new(packets), loads))
}
