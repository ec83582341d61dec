ghost use Rattle.std.specs.Prelude.{◌≡◌, ◌≤◌, length};
ghost use Rattle.std.specs.List.{sum};
ghost use Rattle.xds_packets.specs.PacketCodes.{checksum as checksum_of};

use crate::texts::XdsText;

/// A packet of extended data (CTA-608-E).
#[derive(Drop)]
pub struct XdsPacket {
    /// The class, 1 to 7: current programme, future programme, channel, miscellaneous, public service, reserved, private.
    pub class: u8,
    /// The type, whose meaning depends on the class.
    pub kind: u8,
    /// The text.
    pub text: XdsText,
}

/// The sum of the bytes of a text.
pub fn sum_of(bytes: &[u8]) -> u32
    requires { length bytes.now ≤ 32 }
    ensures sum { result ≡ sum bytes.now }
    ensures bound { result ≤ 8160 }
{
    let mut total: u32 = 0;
    for byte in bytes {
        total += u32::from(*byte);
    }
    total
}

/// The second byte of a packet's end pair: with it the bytes of the start pair, the text and the end pair sum to 0 modulo 128.
pub fn checksum(class: u8, kind: u8, text: &[u8]) -> u8
    requires { length text.now ≤ 32 }
    ensures { result ≡ checksum_of (record { class = class; kind = kind; text = text.now }) }
{
    let total = 2 * u32::from(class) + u32::from(kind) + sum_of(text) + 0x0E;
    ((128 - total % 128) % 128) as u8
}
