ghost use Rattle.std.specs.Prelude.{◌≡◌, ◌≤◌, length, chars};
ghost use Rattle.std.specs.List.{list_all};
ghost use Rattle.cue_form.specs.Answers.{Gives};
ghost use Rattle.cue_form.specs.Form.{cue_columns, is_coded};
ghost use Rattle.cue_form.specs.Texts.{is_plain_byte, run_text_of};

use crate::{Offence, out_of_form};
use cc_base::Why;
use cue_types::{Kind, Text};
use dtvcc_codes::spell_dtv;
use line21_codes::spell;
use std::alloc::Global;
use std::str;

/// The text of a run that begins at a column, in a cue of the kind. It is judged for its bytes, then for its characters, then
/// for its length; where its bytes are all plain and fit, it is good by all three.
pub fn read_text(alloc: Global, kind: Kind, col: u8, text: &[u8]) -> Result<Text, Offence>
    ensures { Gives (run_text_of kind col text.now) result }
{
    let fits = usize::from(col) + text.len() <= usize::from(columns_of(kind));
    if fits && !text.is_empty() && are_plain(text) {
        plain_text(alloc, text)
    } else {
        judged_text(alloc, kind, col, text)
    }
}

/// Whether the bytes are all plain. Each is tested, so that many can be tested at once.
fn are_plain(text: &[u8]) -> bool
    ensures { result ≡ list_all is_plain_byte text.now }
{
    let mut plain = true;
    for byte in text {
        plain &= is_plain_byte(*byte);
    }
    plain
}

/// A character of ASCII that has a code in line 21 and in a service: there is none for ` in line 21.
fn is_plain_byte(byte: u8) -> bool
    ensures { result ≡ is_plain_byte byte }
{
    0x20 <= byte && byte < 0x7F && byte != 0x60
}

/// The text of plain bytes, each of which is its own character.
fn plain_text(alloc: Global, text: &[u8]) -> Result<Text, Offence>
    ensures { Gives (Ok text.now) result }
{
    match text.iter().map(|byte| char::from(*byte)).collect(alloc) {
        Ok(chars) => Ok(Text::from_vec(chars)),
        Err(error) => Err(Offence::Memory(error)),
    }
}

/// The text of any bytes, judged in turn.
fn judged_text(alloc: Global, kind: Kind, col: u8, text: &[u8]) -> Result<Text, Offence>
    ensures { Gives (run_text_of kind col text.now) result }
{
    let Ok(text) = str::from_utf8(text) else {
        return Err(out_of_form(5));
    };
    if text.is_empty() {
        return Err(out_of_form(5));
    }
    if !are_coded(kind, text) {
        return Err(Offence::At {
            field: 5,
            why: Why::NoCode,
        });
    }
    if usize::from(col) + count_of(text) > usize::from(columns_of(kind)) {
        return Err(out_of_form(5));
    }
    match text.chars().collect(alloc) {
        Ok(chars) => Ok(Text::from_vec(chars)),
        Err(error) => Err(Offence::Memory(error)),
    }
}

/// The columns of the rows of a cue of the kind: 32, or its window's.
pub fn columns_of(kind: Kind) -> u8
    ensures { result ≡ cue_columns kind }
{
    match kind {
        Kind::Win(window) => window.cols,
        Kind::Pop(_) | Kind::Paint(_) | Kind::Roll(_, _) => 32,
    }
}

/// Whether there is a code for each character, in a cue of the kind.
fn are_coded(kind: Kind, text: &str) -> bool
    ensures { result ≡ list_all (is_coded kind) (chars text.now) }
{
    text.chars().all(|ch| is_coded(kind, ch))
}

/// The number of characters.
fn count_of(text: &str) -> usize
    ensures count { result ≡ length (chars text.now) }
    ensures small { result ≤ length text.now }
{
    text.chars().count()
}

/// Whether there is a code for the character, in a cue of the kind.
#[tactic(auto, unfolding(crate::specs::Form::is_coded))]
fn is_coded(kind: Kind, ch: char) -> bool
    ensures { result ≡ is_coded kind ch }
{
    match kind {
        Kind::Win(_) => spell_dtv(ch).is_some(),
        Kind::Pop(_) | Kind::Paint(_) | Kind::Roll(_, _) => spell(ch).is_some(),
    }
}
