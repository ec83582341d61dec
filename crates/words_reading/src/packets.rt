ghost use Rattle.std.specs.Prelude.{◌≡◌, ◌<◌, ◌≤◌, ◌+◌, ◌++◌, ℕ, [], List, IfOk, length};
ghost use Rattle.cdp_packets.specs.Packets.{Frame};
ghost use Rattle.words_reading.specs.Causes.{words_limit};
ghost use Rattle.words_reading.specs.OpenPackets.{HasRead, MayFollow, Receives, open_bytes};

use arrayvec::ArrayVec;
use cc_base::Refusal;
use cc_receiver::{Fed, Receiver};
use std::alloc::{AllocError, Global};

/// The most bytes of an ancillary packet: 255 user words and seven others (SMPTE ST 291-1).
const PACKET_ROOM: usize = 524;

/// A receiver of words, with the bytes of the packet that is open.
#[derive(Drop)]
pub struct Packets {
    /// What the words that were read say.
    pub receiver: Receiver,
    held: ArrayVec<u8, PACKET_ROOM>,
}

impl Packets {
    /// A receiver that was fed nothing.
    pub fn new(alloc: Global) -> Result<Packets, AllocError>
        ensures read { IfOk result (HasRead [] []) }
        ensures none { IfOk result (λ packets. open_bytes packets ≡ []) }
    {
        Ok(Packets {
            receiver: Receiver::new(alloc)?,
            held: ArrayVec::new(),
        })
    }

    /// Reads the next bytes, up to the end of a packet, and keeps them after the open packet's.
    pub fn feed(&mut self, bytes: &[u8]) -> Result<Fed, Refusal>
        requires { MayFollow words_limit self.now (length bytes.now) }
        ensures { (frames : List Frame) (file : List ℕ) → HasRead frames file self.old
            → Receives frames file bytes.now self.old self.new result }
    {
        match self.receiver.feed(bytes) {
            Ok(fed) => {
                self.keep(&bytes[..fed.used]);
                Ok(fed)
            }
            Err(refusal) => Err(refusal),
        }
    }

    /// Keeps bytes after the open packet's, for which there is room.
    fn keep(&mut self, bytes: &[u8])
        requires { length self.now.held.items + length bytes.now ≤ 524 }
        ensures held { open_bytes self.new ≡ open_bytes self.old ++ bytes.now }
        ensures receiver { self.new.receiver ≡ self.old.receiver }
    {
        if self.held.try_extend_from_slice(bytes).is_err() {
            unreachable!();
        }
    }

    /// The number of frames that ended.
    pub fn frames(&self) -> u32
        ensures { (frames : List Frame) (file : List ℕ) → HasRead frames file self.now
            → result ≡ length frames }
    {
        self.receiver.frames()
    }

    /// The bytes of the packet that is open, or that ended last.
    pub fn bytes(&self) -> &[u8]
        ensures is { result.now ≡ open_bytes self.now }
        ensures few { length result.now ≤ 524 }
    {
        self.held.as_slice()
    }

    /// Begins the next packet.
    pub fn begin(&mut self)
        ensures none { open_bytes self.new ≡ [] }
        ensures receiver { self.new.receiver ≡ self.old.receiver }
    {
        self.held.clear();
    }
}
