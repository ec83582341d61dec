//! Laws of the definitions: functions without a body, whose contract is the law.

ghost use Rattle.xds_packets.specs.EndsOfPackets.{EndPairsAloneEnd, PacketsEndHere};
ghost use Rattle.xds_packets.specs.OneByOne.{CodesAreReadOneByOne};
ghost use Rattle.xds_packets.specs.PacketCodes.{PacketsCanBeWritten};
ghost use Rattle.xds_packets.specs.Places.{OverWhereAllStand, PairsStandInTheNextFreeSlots, StandingIsGiven, UnfinishedLacksRoom};
ghost use Rattle.xds_packets.specs.Carried.{PacketsAreCarried, UnfinishedIsFirst};
ghost use Rattle.xds_packets.specs.Examples.{PacketIsRead, PacketIsReadAroundACaption};

/// An end pair ends a packet, one at most, exactly where the four conditions of the standard hold of the segment that it closes; no other
/// pair ends one.
pub fn packets_end_under_four_conditions()
    ensures here { PacketsEndHere }
    ensures alone { EndPairsAloneEnd }
{}

/// What is kept of the codes so far, the open segment and the packets that are under way, tells at each code the packet that ends there.
pub fn codes_are_read_one_by_one()
    ensures { CodesAreReadOneByOne }
{}

/// What a packet sends can be written, so its pairs are read as its codes.
pub fn packets_can_be_written()
    ensures { PacketsCanBeWritten }
{}

/// Packets that are sent in free slots beside captions are read again: at every slot the packets read so far, and then those that aren't
/// ended, are the list's.
pub fn packets_are_carried()
    ensures { PacketsAreCarried }
{}

/// The first packet that isn't ended is the first that isn't read.
pub fn unfinished_is_first()
    ensures { UnfinishedIsFirst }
{}

/// Each further pair of a packet stands in the next free slot, after a continue pair where the slot before isn't free.
pub fn pairs_stand_in_the_next_free_slots()
    ensures { PairsStandInTheNextFreeSlots }
{}

/// The pairs of packets are sent where they stand, and none elsewhere.
pub fn standing_is_given()
    ensures { StandingIsGiven }
{}

/// After this many slots all packets are ended exactly where all stand in them.
pub fn over_where_all_stand()
    ensures { OverWhereAllStand }
{}

/// Where a packet is the first that isn't ended after this many slots, those before it stand in them, and it finds no room there.
pub fn unfinished_lacks_room()
    ensures { UnfinishedLacksRoom }
{}

/// Worked examples: a packet in pairs of its own, and one around a caption.
pub fn examples_are_read()
    ensures alone { PacketIsRead }
    ensures around { PacketIsReadAroundACaption }
{}
