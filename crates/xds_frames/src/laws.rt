//! Laws of the definitions: functions that do nothing, with the laws as their contracts.
ghost use Rattle.xds_frames.specs.ListPackets.{OnePacketLacksRoom, PacketsAreLaid, RoomIsJudged, RoomIsTold, RoomLacksNone};

/// Packets that are laid over the frames of a placed cue list make its frames with packets in the free slots of field 2.
pub fn packets_are_laid()
    ensures { PacketsAreLaid }
{}

/// The first packet that isn't ended in the frames of a list is the first that has no room there.
pub fn room_is_told()
    ensures { RoomIsTold }
{}

/// All packets have room beside the captions of a placed list, or one is the first without.
pub fn room_is_judged()
    ensures { RoomIsJudged }
{}

/// Where all packets have room none is the first without.
pub fn room_lacks_none()
    ensures { RoomLacksNone }
{}

/// One packet alone is the first without room.
pub fn one_packet_lacks_room()
    ensures { OnePacketLacksRoom }
{}
