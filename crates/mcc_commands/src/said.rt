ghost use Rattle.std.specs.Prelude.{◌≡◌, ◌↔◌, ◌≤◌, IsTrue, length};
ghost use Rattle.anc_words.specs.Packets.{AncillaryPacket};
ghost use Rattle.anc_words.specs.WordsFiles.{IsPacketBytes};
ghost use Rattle.mcc_files.specs.PayloadWords.{payload_of};
ghost use Rattle.mcc_commands.specs.Exported.{IsOfBytes};
ghost use Rattle.mcc_commands.specs.ExportSteps.{IsAnyPacket, payload_in};

use anc_words::write_packet;
use arrayvec::ArrayVec;

/// The places of the low bytes of a packet's identifiers, of its count and of its first user word (SMPTE ST 291-1).
const DID: usize = 7;

const SDID: usize = 9;

const COUNT: usize = 11;

const USER: usize = 13;

/// What an ancillary packet says: its identifiers, and bits 7 to 0 of its user words.
#[derive(Clone, Copy)]
pub struct Said {
    pub(crate) did: u8,
    pub(crate) sdid: u8,
    // How many user words there are.
    count: u8,
    // Their bits 7 to 0, at the front.
    user: [u8; 255],
}

impl Said {
    ghost use Rattle.mcc_commands.specs.ExportSteps.{user_in};

    /// The bits 7 to 0 of the user words.
    pub(crate) fn user(&self) -> &[u8]
        ensures is { result.now ≡ user_in self.now }
        ensures few { length result.now ≤ 255 }
    {
        &self.user[..usize::from(self.count)]
    }
}

/// What the packet of these bytes says.
pub(crate) fn read(packet: &[u8]) -> Said
    requires { IsAnyPacket packet.now }
    ensures { (is : AncillaryPacket) → IsPacketBytes is packet.now
        → payload_in result ≡ payload_of is }
{
    let did = packet[DID];
    let sdid = packet[SDID];
    let count = packet[COUNT];
    let mut user = [0; 255];
    for k in 0..usize::from(count) {
        user[k] = packet[USER + 2 * k];
    }
    Said {
        did,
        sdid,
        count,
        user,
    }
}

/// Whether the user words of the packet of these bytes, which says this, are 8-bit words: then it is written of what it says as it stands.
pub(crate) fn is_of_bytes(packet: &[u8], said: &Said) -> bool
    ensures { (is : AncillaryPacket) → IsPacketBytes is packet.now
        → payload_in said.now ≡ payload_of is → IsTrue result ↔ IsOfBytes is }
{
    let mut words = ArrayVec::new();
    write_packet(said.did, said.sdid, said.user(), &mut words);
    words.as_slice() == packet
}
