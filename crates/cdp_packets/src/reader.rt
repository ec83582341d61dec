ghost use Rattle.std.specs.Prelude.{◌≡◌, ◌↔◌, ◌++◌, ◌∷◌, ℕ, List, [], Some, IfErr, IfOk, IsOk};
ghost use Rattle.cc_base.specs.declared.why.Why.TheVariants as why;
ghost use Rattle.cc_base.specs.declared.refusal.Refusal.{Refusal as Refused};
ghost use Rattle.cc_base.specs.declared.step.Step.TheVariants.{Refuse};
ghost use Rattle.cc_base.specs.declared.why.Why.{Why as Reason};
ghost use Rattle.cc_base.specs.Feeding.{place_by, why_of};
ghost use Rattle.cc_base.specs.Steps.{IsTaken, step_why};
ghost use Rattle.cc_base.specs.Syntax.{Reads, judge_by, open_behind};
ghost use Rattle.cdp_packets.specs.Reading.{IsPacketLength, cdp_syntax, judge_cdp};

use crate::open_packet::OpenPacket;
use crate::parts::CdpPart;
use cc_base::{Fed, Refusal, Resume, Step, Upward, Why};

/// Reads the bytes of a caption distribution packet, in any pieces (SMPTE ST 334-2), and hands its parts upward. These are the
/// rate, the flags, the counter, each byte of the sections with the triplets of cc_data after their bytes, and its end.
///
/// The length of the packet is known before. A byte is refused where no packet of this length can continue with it:
/// `Identifier`, `Length` where the packet gives another one, `Rate` for code 0 and above 8, `Section` at an id, and `Count`
/// at a section's second byte. In the footer these are `Section` again where its id is another one, `Counter` where its
/// counter isn't the head's, and `Sum`. Or the layer above refuses it for its own reason. The place is the number of the
/// byte. Bytes after the packet's end change nothing. The reader keeps counts and a sum, and no list of bytes.
#[derive(Clone, Copy)]
pub struct CdpReader {
    fed: Fed<OpenPacket>,
}

impl CdpReader {
    ghost use Rattle.cdp_packets.specs.Readers.{HasRead, kept_refusal};

    /// A reader of a packet of this length that was fed nothing. `Length` where no packet has it: below 11, and 12.
    pub fn new(length: u8) -> Result<CdpReader, Why>
        ensures variant { IsOk result ↔ IsPacketLength length }
        ensures reader { IfOk result (HasRead length []) }
        ensures why { IfErr result (λ reason. reason ≡ why.Length) }
    {
        if length < SHORTEST || length == SHORTEST + 1 {
            return Err(Why::Length);
        }
        Ok(CdpReader {
            fed: Fed::new(OpenPacket::new(length)),
        })
    }

    /// Reads the next byte by itself, for a caller that takes its parts as they come: what `feed` makes of one byte before it
    /// hands the parts upward. A refusal is kept, and answered from then on with nothing read.
    pub fn step(&mut self, byte: u8) -> Step<CdpPart>
        ensures says { (size : ℕ) (bytes : List ℕ) → HasRead size bytes self.old
            → result ≡ judge_cdp size (open_behind (cdp_syntax size) bytes) byte }
        ensures leads { (size : ℕ) (bytes : List ℕ) → HasRead size bytes self.old → IsTaken result
            → HasRead size (bytes ++ byte ∷ []) self.new }
        ensures refused { (size : ℕ) (bytes : List ℕ) (reason : Reason)
            → HasRead size bytes self.old → result ≡ Refuse reason
            → kept_refusal self.new ≡ Some (record { place = place_by 1 bytes; why = reason }) }
        ensures kept { (refused : Refused) → kept_refusal self.old ≡ Some refused
            → (result ≡ Refuse refused.why) × (self.new ≡ self.old) }
        ensures told { step_why result ≡ why_of (kept_refusal self.new) }
    {
        self.fed.step(byte)
    }
}

impl Resume<u8, CdpPart> for CdpReader {
    ghost use Rattle.std.proofs.Common.{rules};
    ghost use Rattle.cdp_packets.specs.Readers.{HasRead, kept_refusal};

    ghost Given = { ℕ };

    ghost judge = { λ size. judge_by (cdp_syntax size) };

    ghost place = { place_by 1 };

    ghost Leads = { λ size bytes reader. HasRead size bytes reader };

    ghost refusal = { λ reader. kept_refusal reader };

    fn feed<U: Upward<CdpPart>>(&mut self, input: &[u8], up: &mut U) -> Result<(), Refusal> {
        self.fed.feed(input, up)
    }

    ghost is_open = { λ size bytes reader led. led.unrefused };

    ghost item_fits = { Prim.search rules };
}

// The length of a packet without sections. A list of sections never has one byte.
const SHORTEST: u8 = 7 + 4;
