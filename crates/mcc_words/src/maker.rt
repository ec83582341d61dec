ghost use Rattle.std.specs.Prelude.{◌≡◌, ◌≤◌, ◌<◌, ◌%◌, ℕ, List, [], None, Some, IfSome, IfNone, length, sum};
ghost use Rattle.cdp_packets.specs.Packets.{Frame, IsCdp};
ghost use Rattle.mcc_words.specs.Raised.{IsRaised};
ghost use Rattle.anc_words.specs.Writing.{packet_bytes};

use crate::missing::MissingFrames;
use crate::raised::raise;
use anc_words::write_packet;
use arrayvec::ArrayVec;
use cc_base::Rate;
use cdp_packets::read_summed_packet;

/// A packet of captions that came before.
#[derive(Clone, Copy)]
pub struct Before {
    /// Its frame of the day.
    pub frame: u32,
    /// Its rate.
    pub rate: Rate,
    /// Its counter in the file.
    pub counter: u16,
    /// By how much its counter was raised, modulo 65536.
    pub raised: u16,
}

/// A maker of the words of an MCC file's packets, one packet after another.
#[derive(Clone, Copy)]
pub struct MccWords {
    before: Option<Before>,
}

/// The sum of bytes, modulo 256.
fn total(bytes: &[u8]) -> u8
    ensures { result ≡ sum bytes.now % 256 }
{
    let mut total = 0u8;
    for byte in bytes {
        total = total.wrapping_add(*byte);
    }
    total
}

/// A number of frames, modulo 65536.
fn modulo_65536(frames: u32) -> u16
    ensures { result ≡ frames % 65536 }
{
    (frames % 65_536) as u16
}

impl MccWords {
    ghost use Rattle.mcc_words.specs.MccWords.{raised_by};
    ghost use Rattle.mcc_words.specs.Makers.{AreMissingFrames, BeginsCaptions, HasMade, raises};

    /// A maker before all packets.
    pub fn new() -> MccWords
        ensures { HasMade [] [] result }
    {
        MccWords { before: None }
    }

    // The frames that are missing before a packet of captions at a frame of this rate.
    fn missing(&self, frame: u32, rate: Rate) -> MissingFrames
        ensures { AreMissingFrames self.now.before frame result }
    {
        match self.before {
            None => MissingFrames {
                rate,
                number: 0,
                left: 0,
            },
            Some(before) => MissingFrames {
                rate: before.rate,
                number: before.counter.wrapping_add(before.raised).wrapping_add(1),
                left: frame.saturating_sub(before.frame).saturating_sub(1),
            },
        }
    }

    // By how much the counter of a packet of captions at a frame is raised.
    fn raised_by(&self, frame: u32, counter: u16) -> u16
        ensures { result ≡ raised_by self.now.before frame counter }
    {
        let Some(before) = self.before else {
            return 0;
        };
        let frames = frame.saturating_sub(before.frame);
        if before.counter.wrapping_add(modulo_65536(frames)) == counter {
            before.raised
        } else {
            before
                .raised
                .wrapping_add(modulo_65536(frames.saturating_sub(1)))
        }
    }

    /// Begins the words of a packet of captions with these user bytes at a frame of the day: the frames without captions that are to be put
    /// before it. None exactly where the user bytes are no distribution packet (SMPTE ST 334-2).
    pub fn begin_captions(&mut self, frame: u32, user: &[u8]) -> Option<MissingFrames>
        ensures begins { IfSome result
            (λ frames. BeginsCaptions self.old frame user.now self.new frames) }
        ensures none { IfNone result ((packet : Frame) → IsCdp packet user.now → ⊥) }
    {
        let whole = read_summed_packet(user, total(user))?;
        let frames = self.missing(frame, whole.rate);
        let raised = self.raised_by(frame, whole.counter);
        self.before = Some(Before {
            frame,
            rate: whole.rate,
            counter: whole.counter,
            raised,
        });
        Some(frames)
    }

    /// Puts the words of the packet of captions that was begun into an empty `out`, as an ancillary packet (SMPTE ST 334-1). They have
    /// its user bytes with the counter raised by the frames that were put so far and that it doesn't count already.
    pub fn put_captions(&self, user: &[u8], out: &mut ArrayVec<u8, 524>)
        requires few { length user.now ≤ 255 }
        requires packet { (packet : Frame) × IsCdp packet user.now }
        requires empty { out.old.items ≡ [] }
        ensures { IfSome self.now.before
            (λ now. (raised : List ℕ) × IsRaised now.raised user.now raised
            × (out.new.items ≡ packet_bytes 0x61 0x01 raised)) }
    {
        let by = match self.before {
            Some(now) => now.raised,
            None => 0,
        };
        let mut raised = ArrayVec::new();
        raise(user, by, &mut raised);
        write_packet(0x61, 0x01, &raised, out);
    }
    /// Whether the counter of the packet of captions that was begun is raised, never before all packets. Where it isn't, the packet's words
    /// are as they came.
    pub fn raises(&self) -> bool
        ensures { result ≡ raises self.now }
    {
        match self.before {
            Some(now) => now.raised > 0,
            None => false,
        }
    }
}
