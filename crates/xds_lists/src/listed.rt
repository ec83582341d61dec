ghost use Rattle.xds_lists.specs.Form.{IsListed};

use xds_packets::XdsPacket;

/// A packet of a list, to be sent from a frame on.
#[derive(Drop)]
pub struct XdsListed {
    /// The frame, 0 to 999,999.
    pub from: u32,
    /// The packet: a class of 1 to 7, a type of 1 to 127, and 1 to 32 bytes of text, each 20 to 7E.
    pub packet: XdsPacket,
    pub ghost is_listed: { IsListed (record { from = from; packet = packet }) },
}
