//! Laws of the definitions: functions that do nothing, with the laws as their contracts.
ghost use Rattle.xds_frames.specs.Beside.{CaptionsAreBeside};
ghost use Rattle.xds_frames.specs.FreeSlots.{CaptionsLeaveFree};
ghost use Rattle.xds_frames.specs.Outside.{DataChangeNothing};
ghost use Rattle.xds_frames.specs.PacketTimeline.{PacketsAreOutside};
ghost use Rattle.xds_frames.specs.XdsFrames.{PacketsAreRead, PacketsChangeNothing, PacketsLeaveFramesSound};

/// Extended data beside captions change nothing of what the captions' channel gets.
pub fn data_change_nothing()
    ensures { DataChangeNothing }
{}

/// The pairs of packets in free slots keep out of the captions.
pub fn packets_are_outside()
    ensures { PacketsAreOutside }
{}

/// Captions that leave slots free keep out of the packets there.
pub fn captions_are_beside()
    ensures { CaptionsAreBeside }
{}

/// The captions of CC3 of a list that keeps the rules leave the free slots of field 2, at every rate.
pub fn captions_leave_free()
    ensures { CaptionsLeaveFree }
{}

/// With packets in its free slots, the frames of a list have fit pairs and show on each channel what they show without.
pub fn packets_change_nothing()
    ensures { PacketsChangeNothing }
{}

/// With packets in its free slots, the frames of a list are sound, and each service gets what it gets without.
pub fn packets_leave_frames_sound()
    ensures { PacketsLeaveFramesSound }
{}

/// Where all packets have room, the pairs of field 2 are read as just these packets.
pub fn packets_are_read()
    ensures { PacketsAreRead }
{}
