ghost use Rattle.std.specs.Prelude.{◌≡◌, ◌<◌, ◌≤◌, ℕ, List, [], IfSome};
ghost use Rattle.dtvcc_codes.specs.Reading.{command_syntax, completed, open_after};
ghost use Rattle.dtvcc_codes.specs.Spellable.{IsSpellable};

use crate::commands::Command;
use crate::reading::{character_of, command_of, told_size};
use cc_base::{Machine, Step};

// The bytes of the longest command that says anything, or whose length its code tells.
const ROOM: usize = 7;

/// What is kept of a command while its bytes come: these, seven at most, or only the number of those to come of a longer one
/// that is passed over. Each byte is taken by itself (CTA-708-E, 7.1).
#[derive(Clone, Copy)]
pub struct OpenCommand {
    // The bytes that came, in front.
    bytes: [u8; ROOM],
    // Their number.
    kept: usize,
    // The number of bytes to come of a command that is passed over.
    to_skip: usize,
    ghost room: { kept < 7 },
}

impl OpenCommand {
    ghost use Rattle.dtvcc_codes.specs.Readers.{Keeps};

    /// No command is open.
    #[tactic(auto, unfolding(crate::specs::Reading::told_size))]
    pub fn new() -> OpenCommand
        ensures { Keeps [] result }
    {
        OpenCommand {
            bytes: [0; ROOM],
            kept: 0,
            to_skip: 0,
        }
    }

    /// Takes the next byte, and gives the command that it completes, if it completes one. No byte is refused.
    #[inline(always)]
    pub fn take(&mut self, byte: u8) -> Option<Command>
        ensures says { (front : List ℕ) → Keeps front self.old → result ≡ completed front byte }
        ensures leads { (front : List ℕ) → Keeps front self.old
            → Keeps (open_after front byte) self.new }
        ensures fits { IfSome result IsSpellable }
    {
        if self.to_skip > 0 {
            self.to_skip -= 1;
            return (self.to_skip == 0).then_some(Command::Skipped);
        }
        if self.kept == 0
            && let Some(character) = character_of(byte)
        {
            return Some(Command::Put(Some(character)));
        }
        self.bytes[self.kept] = byte;
        let kept = self.kept + 1;
        let bytes = &self.bytes[..kept];
        let size = told_size(bytes);
        if size <= kept {
            let command = command_of(bytes);
            self.kept = 0;
            return Some(command);
        }
        if size > ROOM {
            self.kept = 0;
            self.to_skip = size - kept;
        } else {
            self.kept = kept;
        }
        None
    }
}

impl Machine<u8, Command> for OpenCommand {
    ghost use Rattle.std.proofs.Common.{rules};
    ghost use Rattle.dtvcc_codes.specs.Readers.{Keeps};

    ghost Given = { Unit {0} };

    ghost Front = { List ℕ };

    ghost syntax = { λ given. command_syntax };

    ghost Matches = { λ given front state. Keeps front state };

    ghost UNIT = { 1 };

    const UNIT: u64 = 1;

    fn step(&mut self, item: u8) -> Step<Command> {
        match self.take(item) {
            Some(command) => Step::One(command),
            None => Step::Nothing,
        }
    }

    ghost unit_is_positive = { Prim.search rules };

    ghost item_fits = { Prim.search rules };
}
