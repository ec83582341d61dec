ghost use Rattle.std.specs.Prelude.{◌≡◌, ◌-◌, ◌<◌, ◌≤◌, ◌++◌, [], ◌∷◌, Some, None, IsSome, false, length, replicate, unwrap_or};
ghost use Rattle.cc_base.specs.Syntax.{open_behind};
ghost use Rattle.dtvcc_codes.specs.CharacterSpellings.{dtvcc_spelling};
ghost use Rattle.dtvcc_codes.specs.Reading.{command_syntax, completions};
ghost use Rattle.dtvcc_codes.specs.Spellable.{IsDefinition, IsFill, IsPenAttr, IsPenColors, IsRgb, IsSpellable, IsWinAttr, is_skipped};
ghost use Rattle.dtvcc_codes.specs.Spelling.{Spells};
ghost use Rattle.dtvcc_codes.specs.Writing.{attribute_bytes, bit, bytes_of_command, color_bytes, definition_bytes, fill_byte, pen_bytes, rgb_byte};

use crate::characters::spell_dtv;
use crate::commands::Command;
use crate::pens::{Fill, PenAttr, PenColors, Rgb};
use crate::reading::EXT1;
use crate::windows::{Definition, WinAttr};
use arrayvec::ArrayVec;

/// The bytes that spell a command: a character by G0, G1 or G2, the first that has it, the transparent space as 10 20, and
/// bits without a meaning as 0. The command isn't skipped, its fields are in their ranges, and its character, if it puts one,
/// has a spelling. The bytes are read as the command again, with the last of them, and leave nothing open
/// (CTA-708-E, 7.1, and the command descriptions).
///
/// It is inlined, so that a caller that knows which command it has writes that one alone.
#[inline(always)]
pub fn write_command(command: &Command) -> ArrayVec<u8, 7>
    requires spellable { IsSpellable command.now }
    requires unskipped { is_skipped command.now ≡ false }
    ensures bytes { result.items ≡ bytes_of_command command.now }
    ensures spells { Spells command.now result.items }
    ensures completes { completions [] result.items
        ≡ replicate (length result.items - 1) None ++ Some command.now ∷ [] }
    ensures closed { open_behind command_syntax result.items ≡ [] }
{
    bytes_of(*command)
}

#[inline(always)]
#[tactic(auto, unfolding(crate::specs::Writing::bytes_of_command))]
fn bytes_of(command: Command) -> ArrayVec<u8, 7>
    requires spellable { IsSpellable command }
    requires unskipped { is_skipped command ≡ false }
    ensures { result.items ≡ bytes_of_command command }
{
    match command {
        Command::Put(None) => coded(EXT1, &[0x20]),
        Command::Put(Some(ch)) => character_bytes(ch),
        Command::Etx => coded(0x03, &[]),
        Command::Bs => coded(0x08, &[]),
        Command::Ff => coded(0x0C, &[]),
        Command::Cr => coded(0x0D, &[]),
        Command::Hcr => coded(0x0E, &[]),
        Command::Cw(id) => coded(0x80 + id, &[]),
        Command::Clw(windows) => coded(0x88, &[windows]),
        Command::Dsw(windows) => coded(0x89, &[windows]),
        Command::Hdw(windows) => coded(0x8A, &[windows]),
        Command::Tgw(windows) => coded(0x8B, &[windows]),
        Command::Dlw(windows) => coded(0x8C, &[windows]),
        Command::Dly(tenths) => coded(0x8D, &[tenths]),
        Command::Dlc => coded(0x8E, &[]),
        Command::Rst => coded(0x8F, &[]),
        Command::Spa(pen) => coded(0x90, &pen_bytes(pen)),
        Command::Spc(colors) => coded(0x91, &color_bytes(colors)),
        Command::Spl { row, col } => coded(0x92, &[row, col]),
        Command::Swa(attributes) => coded(0x97, &attribute_bytes(attributes)),
        Command::Df(definition) => coded(0x98 + definition.id, &definition_bytes(definition)),
        Command::Skipped => unreachable!(),
    }
}

// A code and its parameters.
fn coded(code: u8, parameters: &[u8]) -> ArrayVec<u8, 7>
    requires { length parameters.now ≤ 6 }
    ensures { result.items ≡ code ∷ parameters.now }
{
    let mut bytes = ArrayVec::new();
    bytes.push(code);
    bytes.try_extend_from_slice(parameters).unwrap();
    bytes
}

fn character_bytes(ch: char) -> ArrayVec<u8, 7>
    requires { IsSome (dtvcc_spelling ch) }
    ensures { result.items ≡ unwrap_or (dtvcc_spelling ch) [] }
{
    match spell_dtv(ch) {
        Some(spelling) => match spelling.as_slice() {
            [code] => coded(*code, &[]),
            codes => {
                let mut bytes = ArrayVec::new();
                bytes.try_extend_from_slice(codes).unwrap();
                bytes
            }
        },
        None => unreachable!(),
    }
}

// A bit of this value.
fn bit(on: bool, value: u8) -> u8
    ensures says { result ≡ bit on value }
    ensures small { result ≤ value }
{
    if on { value } else { 0 }
}

fn rgb_byte(rgb: Rgb) -> u8
    requires { IsRgb rgb }
    ensures says { result ≡ rgb_byte rgb }
    ensures small { result < 64 }
{
    rgb.r * 16 + rgb.g * 4 + rgb.b
}

fn fill_byte(fill: Fill) -> u8
    requires { IsFill fill }
    ensures { result ≡ fill_byte fill }
{
    fill.opacity * 64 + fill.r * 16 + fill.g * 4 + fill.b
}

fn pen_bytes(pen: PenAttr) -> [u8; 2]
    requires { IsPenAttr pen }
    ensures { result ≡ pen_bytes pen }
{
    [
        pen.tag * 16 + pen.offset * 4 + pen.size,
        bit(pen.italic, 0x80) + bit(pen.underline, 0x40) + pen.edge * 8 + pen.font,
    ]
}

fn color_bytes(colors: PenColors) -> [u8; 3]
    requires { IsPenColors colors }
    ensures { result ≡ color_bytes colors }
{
    [
        fill_byte(colors.fg),
        fill_byte(colors.bg),
        rgb_byte(colors.edge),
    ]
}

fn attribute_bytes(attributes: WinAttr) -> [u8; 4]
    requires { IsWinAttr attributes }
    ensures { result ≡ attribute_bytes attributes }
{
    [
        fill_byte(attributes.fill),
        attributes.border_kind % 4 * 64 + rgb_byte(attributes.border),
        attributes.border_kind / 4 * 128
            + bit(attributes.wrap, 0x40)
            + attributes.print * 16
            + attributes.scroll * 4
            + attributes.justify,
        attributes.effect_speed * 16 + attributes.effect_dir * 4 + attributes.effect,
    ]
}

fn definition_bytes(definition: Definition) -> [u8; 6]
    requires { IsDefinition definition }
    ensures { result ≡ definition_bytes definition }
{
    [
        bit(definition.visible, 0x20)
            + bit(definition.row_lock, 0x10)
            + bit(definition.col_lock, 0x08)
            + definition.priority,
        bit(definition.relative, 0x80) + definition.av,
        definition.ah,
        definition.anchor * 16 + (definition.rows - 1),
        definition.cols - 1,
        definition.ws * 8 + definition.ps,
    ]
}
