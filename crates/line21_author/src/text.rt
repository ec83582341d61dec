ghost use Rattle.std.specs.Prelude.{◌≡◌, List, ◌∷◌, ◌++◌, IfOk, OnOk};
ghost use Rattle.line21_codes.specs.declared.characters.Spelling.{Spelling};
ghost use Rattle.line21_author.specs.TextCodes.{completed_pair, fallback_pair, packed, text_codes};

use crate::channel::first_channel;
use cue_lists::Text;
use line21_codes::{Code, Control, Spelling, spell};
use std::alloc::AllocError;

/// Appends the codes of a text.
pub(crate) fn push_text(codes: &mut Vec<Code>, text: &Text) -> Result<(), AllocError>
    ensures { OnOk result (codes.new.items ≡ codes.old.items ++ text_codes text.now) }
{
    let mut waiting = None;
    for ch in text.as_slice() {
        if let Some(spelling) = spell(*ch) {
            waiting = push_spelling(codes, waiting, spelling)?;
        }
    }
    push_completed(codes, waiting)
}

// Appends the codes that a character completes, where `waiting` is the basic character before it that
// has no second one yet; returns the one that waits after it.
fn push_spelling(
    codes: &mut Vec<Code>,
    waiting: Option<u8>,
    spelling: Spelling,
) -> Result<Option<u8>, AllocError>
    ensures { IfOk result (λ after. (rest : List Spelling)
        → codes.new.items ++ packed after rest
        ≡ codes.old.items ++ packed waiting (spelling ∷ rest)) }
{
    match (spelling, waiting) {
        (Spelling::Basic(byte), None) => Ok(Some(byte)),
        (Spelling::Basic(byte), Some(first)) => {
            codes.push(Code::Text(first, byte))?;
            Ok(None)
        }
        (Spelling::Special(byte), _) => {
            push_completed(codes, waiting)?;
            codes.push(first_channel(Control::Special(byte)))?;
            Ok(None)
        }
        (
            Spelling::Extended {
                fallback,
                set,
                byte,
            },
            _,
        ) => {
            push_fallback(codes, waiting, fallback)?;
            codes.push(first_channel(Control::Extended { set, byte }))?;
            Ok(None)
        }
    }
}

// Appends the text pair that completes a waiting character with the null byte, if one waits.
fn push_completed(codes: &mut Vec<Code>, waiting: Option<u8>) -> Result<(), AllocError>
    ensures { OnOk result (codes.new.items ≡ codes.old.items ++ completed_pair waiting) }
{
    if let Some(first) = waiting {
        codes.push(Code::Text(first, 0))?;
    }
    Ok(())
}

// Appends the text pair that a fallback ends.
fn push_fallback(codes: &mut Vec<Code>, waiting: Option<u8>, fallback: u8) -> Result<(), AllocError>
    ensures { OnOk result (codes.new.items ≡ codes.old.items ++ fallback_pair waiting fallback) }
{
    match waiting {
        None => codes.push(Code::Text(fallback, 0))?,
        Some(first) => codes.push(Code::Text(first, fallback))?,
    }
    Ok(())
}
