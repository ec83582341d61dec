//! Laws of the definitions: functions without a body, whose contract is the law.

ghost use Rattle.std.specs.Prelude.{◌≡◌, ◌↔◌, ◌-◌, ◌<◌, ◌++◌, ℕ, List, [], ◌∷◌, All, Option, Some, None, length, replicate, true, false};
ghost use Rattle.cc_base.specs.Feeding.{Verdict};
ghost use Rattle.cc_base.specs.Steps.{AreAccepted};
ghost use Rattle.cc_base.specs.Syntax.{open_behind, parts_of, read_under};
ghost use Rattle.dtvcc_codes.specs.declared.commands.Command.{Command as Said};
ghost use Rattle.dtvcc_codes.specs.declared.commands.Command.TheVariants as command;
ghost use Rattle.dtvcc_codes.specs.CharacterSpellings.{dtvcc_spelling};
ghost use Rattle.dtvcc_codes.specs.Cut.{IsCut, IsUnfinished};
ghost use Rattle.dtvcc_codes.specs.Reading.{command_syntax, completed, completions};
ghost use Rattle.dtvcc_codes.specs.Spellable.{IsSpellable, is_skipped};
ghost use Rattle.dtvcc_codes.specs.Spelling.{IsSpelled, Spells};
ghost use Rattle.dtvcc_codes.specs.Writing.{bytes_of_command};

/// Bytes begin with at most one spelling of a command: no spelling is the front of another one.
pub fn no_spelling_begins_another()
    ensures command { (command other : Said) (front back rest after : List ℕ)
        → Spells command front → Spells other back → front ++ rest ≡ back ++ after
        → (command ≡ other) × (front ≡ back) × (rest ≡ after) }
    ensures unfinished { (command : Said) (bytes more : List ℕ)
        → Spells command bytes → IsUnfinished (bytes ++ more) → ⊥ }
{}

/// All bytes are cut into commands, and in one way.
pub fn bytes_are_cut_one_way()
    ensures cut { (bytes : List ℕ) → All (λ byte. byte < 256) bytes
        → IsCut (parts_of command_syntax bytes) (open_behind command_syntax bytes) bytes }
    ensures one { (commands others : List Said) (rest after bytes : List ℕ)
        → IsCut commands rest bytes → IsCut others after bytes
        → (commands ≡ others) × (rest ≡ after) }
{}

/// The commands of the cut are handed upward, each with its last byte, under a layer that takes them; no byte is refused.
pub fn the_cut_is_handed_up()
    ensures { (verdict : Verdict Said) (bytes : List ℕ)
        → AreAccepted verdict [] (parts_of command_syntax bytes)
        → read_under command_syntax 1 verdict bytes
        ≡ record { parts = parts_of command_syntax bytes; refusal = None } }
{}

/// A byte completes the command that the open bytes and it spell, and else it is open with them.
pub fn a_spelling_is_completed_by_its_last_byte()
    ensures completed { (bytes : List ℕ) (byte : ℕ) (command : Said)
        → All (λ byte. byte < 256) bytes → byte < 256
        → (completed (open_behind command_syntax bytes) byte ≡ Some command)
        ↔ Spells command (open_behind command_syntax bytes ++ byte ∷ []) }
    ensures spelling { (command : Said) (bytes : List ℕ) → Spells command bytes
        → completions [] bytes ≡ replicate (length bytes - 1) None ++ Some command ∷ [] }
    ensures closed { (command : Said) (bytes : List ℕ) → Spells command bytes
        → open_behind command_syntax bytes ≡ [] }
{}

/// The commands that bytes spell are exactly those in the ranges of their fields.
pub fn spellable_commands_are_spelled()
    ensures { (command : Said) → IsSpellable command ↔ IsSpelled command }
{}

/// What is written is the spelling of the command, in bytes.
pub fn written_is_read()
    ensures spells { (command : Said) → IsSpellable command → is_skipped command ≡ false
        → Spells command (bytes_of_command command) }
    ensures bytes { (command : Said) → IsSpellable command
        → All (λ byte. byte < 256) (bytes_of_command command) }
{}

/// A character's spelling puts it, and a character without one is put by no bytes.
pub fn spelled_characters_are_put()
    ensures put { (ch : ℕ) (bytes : List ℕ) → dtvcc_spelling ch ≡ Some bytes
        → Spells (command.Put (Some ch)) bytes }
    ensures none { (ch : ℕ) (bytes : List ℕ) → dtvcc_spelling ch ≡ None
        → All (λ byte. byte < 256) bytes
        → Spells (command.Put (Some ch)) bytes → ⊥ }
{}

/// DelayCancel and Reset are spelled by one byte alone, so that no byte of another command is taken for them.
pub fn delay_cancel_and_reset_are_one_byte()
    ensures delay_cancel { (bytes : List ℕ) → Spells command.Dlc bytes → bytes ≡ 0x8E ∷ [] }
    ensures reset { (bytes : List ℕ) → Spells command.Rst bytes → bytes ≡ 0x8F ∷ [] }
{}
