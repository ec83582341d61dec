ghost use Rattle.xds_packets.specs.PacketCodes.{IsXdsPacket};

use xds_packets::XdsPacket;

/// The packet that is under way, and how many bytes of its text were sent.
#[derive(Drop)]
pub struct Sending {
    pub packet: XdsPacket,
    pub sent: usize,
    pub ghost is_packet: { IsXdsPacket packet },
}
