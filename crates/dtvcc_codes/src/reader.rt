ghost use Rattle.std.specs.Prelude.{◌≡◌, ℕ, List, []};
ghost use Rattle.cc_base.specs.Feeding.{place_by};
ghost use Rattle.cc_base.specs.Syntax.{judge_by};
ghost use Rattle.dtvcc_codes.specs.Reading.{command_syntax};

use crate::commands::Command;
use crate::open_command::OpenCommand;
use cc_base::{Fed, Refusal, Resume, Upward};

/// Cuts the bytes of a service, in any pieces, into commands, and hands these upward: each with its last byte
/// (CTA-708-E, 7.1). It refuses nothing of its own; the layer above may, and then that refusal is kept. It keeps at most
/// seven bytes.
#[derive(Clone, Copy)]
pub struct CommandReader {
    fed: Fed<OpenCommand>,
}

impl CommandReader {
    ghost use Rattle.dtvcc_codes.specs.Readers.{HasRead};

    /// A reader that was fed nothing.
    pub fn new() -> CommandReader
        ensures { HasRead [] result }
    {
        CommandReader {
            fed: Fed::new(OpenCommand::new()),
        }
    }
}

impl Resume<u8, Command> for CommandReader {
    ghost use Rattle.std.proofs.Common.{rules};
    ghost use Rattle.dtvcc_codes.specs.Readers.{HasRead, kept_refusal};

    ghost Given = { Unit {0} };

    ghost judge = { λ given. judge_by command_syntax };

    ghost place = { place_by 1 };

    ghost Leads = { λ given bytes reader. HasRead bytes reader };

    ghost refusal = { λ reader. kept_refusal reader };

    fn feed<U: Upward<Command>>(&mut self, input: &[u8], up: &mut U) -> Result<(), Refusal> {
        self.fed.feed(input, up)
    }

    ghost is_open = { λ given bytes reader led. led.1.unrefused };

    ghost item_fits = { Prim.search rules };
}
