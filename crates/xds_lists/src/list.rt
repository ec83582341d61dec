ghost use Rattle.std.specs.Prelude.{◌≡◌, ◌+◌, ◌^◌, ◌++◌, ◌<◌, [], ◌∷◌, List, OnErr, OnOk, drop, length};
ghost use Rattle.xds_lists.specs.Packed.{text_before};
ghost use Rattle.xds_lists.specs.Seen.{listed_seen};
ghost use Rattle.xds_packets.specs.Sending.{Listed};

use crate::head::Head;
use crate::listed::XdsListed;
use std::alloc::{AllocError, Global};
use std::marker::Model;
use xds_packets::{XdsPacket, XdsText};

/// A list of packets, each with the frame that it is sent from: fewer than 4,294,967,296, as a file has them. They are kept as
/// the heads of all and the texts of all, one after the other.
#[derive(Drop)]
pub struct XdsList {
    heads: Vec<Head>,
    texts: Vec<u8>,
}

impl Model for XdsList {
    ghost use Rattle.std.specs.Prelude.{List};
    ghost use Rattle.xds_packets.specs.Sending.{Listed};
    ghost use Rattle.xds_lists.specs.Packed.{ArePacked, unpacked};

    ghost Value = { List Listed };

    ghost view = { λ list. unpacked list.heads.items list.texts.items };

    ghost invariant = { λ list. ArePacked list.heads.items list.texts.items };
}

impl XdsList {
    /// No packets, which takes no memory.
    pub fn new(alloc: Global) -> XdsList
        ensures { result ≡ [] }
    {
        XdsList {
            heads: Vec::new(alloc),
            texts: Vec::new(alloc),
        }
    }

    /// Appends a packet.
    pub(crate) fn push(&mut self, listed: &XdsListed) -> Result<(), AllocError>
        requires { length self.now + 1 < 2 ^ 32 }
        ensures { OnOk result (self.new ≡ self.old ++ listed_seen listed.now ∷ []) }
    {
        let text = listed.packet.text.as_slice();
        let before = self.texts.len();
        let head = Head {
            from: listed.from,
            class: listed.packet.class,
            kind: listed.packet.kind,
            size: text.len() as u8,
        };
        push_bytes(&mut self.texts, text)?;
        if let Err(error) = self.heads.push(head) {
            self.texts.truncate(before);
            return Err(error.into());
        }
        Ok(())
    }

    /// The number of packets.
    pub fn len(&self) -> usize
        ensures value { result ≡ length self.now }
        ensures few { result < 2 ^ 32 }
    {
        self.heads.len()
    }

    /// The frame that a packet is sent from.
    pub fn frame(&self, index: usize) -> u32
        requires { index < length self.now }
        ensures { (listed : Listed) (rest : List Listed) → drop index self.now ≡ listed ∷ rest
            → result ≡ listed.from }
    {
        self.heads[index].from
    }

    /// A packet, whose text begins after the earlier packets' texts.
    pub fn listed(&self, index: usize, start: usize) -> XdsListed
        requires index { index < length self.now }
        requires start { start ≡ text_before index self.now }
        ensures listed { drop index self.now ≡ listed_seen result ∷ drop (index + 1) self.now }
        ensures measured { start + length result.packet.text < 2 ^ 64 }
    {
        let head = self.heads[index];
        let text = XdsText::of(&self.texts[start..start + usize::from(head.size)]);
        XdsListed {
            from: head.from,
            packet: XdsPacket {
                class: head.class,
                kind: head.kind,
                text,
            },
        }
    }
}

// Appends bytes.
fn push_bytes(bytes: &mut Vec<u8>, more: &[u8]) -> Result<(), AllocError>
    ensures ok { OnOk result (bytes.new.items ≡ bytes.old.items ++ more.now) }
    ensures err { OnErr result (bytes.new.items ≡ bytes.old.items) }
{
    bytes.extend_from_slice(more)?;
    Ok(())
}
