ghost use Rattle.std.specs.Prelude.{◌≡◌, ◌++◌, [], ◌∷◌, Some, List};
ghost use Rattle.cc_base.specs.declared.refusal.Refusal.{Refusal as Refused};
ghost use Rattle.cc_base.specs.declared.step.Step.TheVariants.{Refuse};
ghost use Rattle.cc_base.specs.declared.why.Why.{Why as Reason};
ghost use Rattle.cc_base.specs.Feeding.{place_by, why_of};
ghost use Rattle.cc_base.specs.Steps.{IsTaken, step_why};
ghost use Rattle.cc_base.specs.Syntax.{judge_by, open_behind};
ghost use Rattle.channel_packets.specs.declared.parts.PacketPart.{PacketPart as Part};
ghost use Rattle.service_blocks.specs.Reading.{block_syntax, judge_part};

use crate::open_block::OpenBlock;
use crate::parts::BlockPart;
use cc_base::{Fed, Refusal, Resume, Step, Upward};
use channel_packets::PacketPart;

/// Reads the parts of caption channel packets, in any pieces, and hands the bytes of services in their blocks upward (CTA-708-E,
/// section 6.2), and a reset where a packet is missing.
///
/// The header of a block is refused for `Overrun` where it says more bytes than its packet has left, with the second header byte
/// counted; or a part for the reason of the layer above. The place is the number of the part. A byte that isn't the next one of the
/// open packet is passed over, and so is one before the first packet. The reader keeps counts, and no bytes.
#[derive(Clone, Copy)]
pub struct BlockReader {
    fed: Fed<OpenBlock>,
}

impl BlockReader {
    ghost use Rattle.service_blocks.specs.Readers.{HasRead, kept_refusal};

    /// A reader that was fed nothing.
    pub fn new() -> BlockReader
        ensures { HasRead [] result }
    {
        BlockReader {
            fed: Fed::new(OpenBlock::new()),
        }
    }

    /// Reads the next part, and gives what it makes in place of handing it upward: what `feed` makes of it under a layer that takes
    /// it. A refusal is kept, and answered from then on with nothing read.
    pub fn step(&mut self, part: PacketPart) -> Step<BlockPart>
        ensures says { (parts : List Part) → HasRead parts self.old
            → result ≡ judge_part (open_behind block_syntax parts) part }
        ensures leads { (parts : List Part) → HasRead parts self.old → IsTaken result
            → HasRead (parts ++ part ∷ []) self.new }
        ensures refused { (parts : List Part) (reason : Reason) → HasRead parts self.old
            → result ≡ Refuse reason
            → kept_refusal self.new ≡ Some (record { place = place_by 1 parts; why = reason }) }
        ensures kept { (refused : Refused) → kept_refusal self.old ≡ Some refused
            → (result ≡ Refuse refused.why) × (self.new ≡ self.old) }
        ensures told { step_why result ≡ why_of (kept_refusal self.new) }
    {
        self.fed.step(part)
    }
}

impl Resume<PacketPart, BlockPart> for BlockReader {
    ghost use Rattle.std.proofs.Common.{rules};
    ghost use Rattle.service_blocks.specs.Readers.{HasRead, kept_refusal};

    ghost Given = { Unit {0} };

    ghost judge = { λ given. judge_by block_syntax };

    ghost place = { place_by 1 };

    ghost Leads = { λ given parts reader. HasRead parts reader };

    ghost refusal = { λ reader. kept_refusal reader };

    fn feed<U: Upward<BlockPart>>(
        &mut self,
        input: &[PacketPart],
        up: &mut U,
    ) -> Result<(), Refusal> {
        self.fed.feed(input, up)
    }

    ghost is_open = { λ given parts reader led. led.unrefused };

    ghost item_fits = { Prim.search rules };
}
