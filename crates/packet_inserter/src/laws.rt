//! Laws of the definitions: functions without a body, whose contract is the law.

ghost use Rattle.std.specs.Prelude.{◌≡◌, ◌<◌, List};
ghost use Rattle.std.specs.List.{All};
ghost use Rattle.cc_data.specs.declared.triplet.Triplet.{Triplet};
ghost use Rattle.cdp_packets.specs.Packets.{Frame};
ghost use Rattle.cdp_packets.specs.PacketTriplets.{packet_triplets};
ghost use Rattle.packet_inserter.specs.Insertion.{IsInserted};

/// There is one packet in which the captions of a packet are replaced, and its triplets are just the new ones.
pub fn captions_are_replaced_in_one_way()
    ensures one { (triplets : List Triplet) (old new other : Frame) → IsInserted triplets old new
        → IsInserted triplets old other → new ≡ other }
    ensures triplets { (triplets : List Triplet) (old new : Frame) → All (λ t. t.kind < 4) triplets
        → IsInserted triplets old new
        → packet_triplets new ≡ triplets }
{}
