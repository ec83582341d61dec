ghost use Rattle.std.specs.Prelude.{◌≡◌, ◌≤◌, ℕ, List, [], ◌∷◌, length, Some, IfSome};
ghost use Rattle.dtvcc_codes.specs.declared.commands.Command.TheVariants.{Put};
ghost use Rattle.dtvcc_codes.specs.CodeTables.{base_codes, extended_codes};
ghost use Rattle.dtvcc_codes.specs.Reading.{count_at, extended_command, extended_size, said_at, spelled_command, told_size};
ghost use Rattle.dtvcc_codes.specs.Spellable.{IsSpellable};

use crate::characters::{LOW_LINE, g0_char, g2_char};
use crate::commands::Command;
use crate::parameters::{definition, pen_attributes, pen_colors, window_attributes};

// The byte that leads to the extended code sets.
pub(crate) const EXT1: u8 = 0x10;

// How many parameter bytes follow a code of C0, G0, C1 or G1.
fn base_count(code: u8) -> usize
    ensures says { result ≡ count_at base_codes code }
    ensures small { result ≤ 6 }
{
    match code {
        0x11..=0x17 | 0x88..=0x8D => 1,
        0x18..=0x1F | 0x90 | 0x92 => 2,
        0x91 => 3,
        0x97 => 4,
        0x98..=0x9F => 6,
        _ => 0,
    }
}

// How many parameter bytes follow a code of C2, G2, C3 or G3, if it isn't counted.
fn extended_count(code: u8) -> usize
    ensures says { result ≡ count_at extended_codes code }
    ensures small { result ≤ 5 }
{
    match code {
        0x08..=0x0F => 1,
        0x10..=0x17 => 2,
        0x18..=0x1F => 3,
        0x80..=0x87 => 4,
        0x88..=0x8F => 5,
        _ => 0,
    }
}

// The character of G0 that a byte puts by itself, where it begins a command.
#[tactic(auto, unfolding(crate::specs::Reading::told_size, crate::specs::Reading::spelled_command), using(crate::proofs::CharacterLemmas::g0_spelled))]
pub(crate) fn character_of(byte: u8) -> Option<char>
    ensures whole { IfSome result (λ ch. told_size (byte ∷ []) ≡ 1) }
    ensures says { IfSome result (λ ch. spelled_command (byte ∷ []) ≡ Put (Some ch)) }
    ensures fits { IfSome result (λ ch. IsSpellable (Put (Some ch))) }
{
    match byte {
        0x20..=0x7F => Some(g0_char(byte)),
        _ => None,
    }
}

// The number of bytes of a command that begins with these, as far as they tell.
#[tactic(auto, unfolding(crate::specs::Reading::told_size))]
pub(crate) fn told_size(bytes: &[u8]) -> usize
    ensures { result ≡ told_size bytes.now }
{
    match bytes {
        [] => 1,
        [EXT1, rest @ ..] => 1 + extended_size(rest),
        [code, ..] => 1 + base_count(*code),
    }
}

// The number of bytes after EXT1.
fn extended_size(bytes: &[u8]) -> usize
    ensures says { result ≡ extended_size bytes.now }
    ensures small { result ≤ 33 }
{
    match bytes {
        [] => 1,
        [0x90..=0x9F] => 2,
        [0x90..=0x9F, count, ..] => 2 + usize::from(*count % 32),
        [code, ..] => 1 + extended_count(*code),
    }
}

// What a whole spelling says.
#[tactic(auto, unfolding(crate::specs::Reading::told_size))]
pub(crate) fn command_of(bytes: &[u8]) -> Command
    requires { told_size bytes.now ≤ length bytes.now }
    ensures says { result ≡ spelled_command bytes.now }
    ensures fits { IsSpellable result }
{
    match bytes {
        [] => Command::Skipped,
        [code, rest @ ..] => {
            if *code == EXT1 {
                extended_command(rest)
            } else {
                base_command(*code, rest)
            }
        }
    }
}

// What a code of C0, G0, C1 or G1 says with its parameters.
#[tactic(auto, using(crate::proofs::CharacterLemmas::low_line_spelled, crate::proofs::CharacterLemmas::g0_spelled, crate::proofs::CharacterLemmas::g1_spelled))]
fn base_command(code: u8, parameters: &[u8]) -> Command
    requires { count_at base_codes code ≤ length parameters.now }
    ensures says { result ≡ said_at base_codes code parameters.now }
    ensures fits { IsSpellable result }
{
    match code {
        0x03 => Command::Etx,
        0x08 => Command::Bs,
        0x0C => Command::Ff,
        0x0D => Command::Cr,
        0x0E => Command::Hcr,
        0x18 => Command::Put(Some(LOW_LINE)),
        0x20..=0x7F => Command::Put(Some(g0_char(code))),
        0x80..=0x87 => Command::Cw(code - 0x80),
        0x88 => Command::Clw(parameters[0]),
        0x89 => Command::Dsw(parameters[0]),
        0x8A => Command::Hdw(parameters[0]),
        0x8B => Command::Tgw(parameters[0]),
        0x8C => Command::Dlw(parameters[0]),
        0x8D => Command::Dly(parameters[0]),
        0x8E => Command::Dlc,
        0x8F => Command::Rst,
        0x90 => Command::Spa(pen_attributes(parameters)),
        0x91 => Command::Spc(pen_colors(parameters)),
        0x92 => Command::Spl {
            row: parameters[0] % 16,
            col: parameters[1] % 64,
        },
        0x97 => Command::Swa(window_attributes(parameters)),
        0x98..=0x9F => Command::Df(definition(code - 0x98, parameters)),
        0xA0.. => Command::Put(Some(char::from(code))),
        _ => Command::Skipped,
    }
}

// What the bytes after EXT1 say, of a whole spelling.
#[tactic(auto, using(crate::proofs::CharacterLemmas::low_line_spelled, crate::proofs::CharacterLemmas::g2_spelled))]
fn extended_command(bytes: &[u8]) -> Command
    ensures says { result ≡ extended_command bytes.now }
    ensures fits { IsSpellable result }
{
    match bytes {
        [code @ 0x20..=0x7F, ..] => Command::Put(g2_char(*code)),
        [0xA0..=0xFF, ..] => Command::Put(Some(LOW_LINE)),
        _ => Command::Skipped,
    }
}
