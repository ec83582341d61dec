ghost use Rattle.std.specs.Prelude.{◌≡◌, ◌++◌, List, map, reverse};
ghost use Rattle.line21_codes.specs.Parity.{is_odd};
ghost use Rattle.line21_codes.specs.declared.channels.FieldNumber.{FieldNumber};
ghost use Rattle.line21_codes.specs.declared.pairs.Pair.{Pair as PairOf};
ghost use Rattle.line21_screen.specs.Objects.{Leads};
ghost use Rattle.cc_conceal.specs.Concealed.{begins_no_text, concealed};

use line21_codes::{NULL_PAIR, Pair};
use line21_screen::Field;

// A solid block, with its parity.
const BLOCK: u8 = 0x7F;

// Whether a byte has an odd number of ones.
fn is_odd(byte: u8) -> bool
    ensures { result ≡ is_odd byte }
{
    byte.count_ones() % 2 == 1
}

// Whether a byte without its parity is from 01 to 1F, so that no text begins with it.
fn begins_no_text(byte: u8) -> bool
    ensures { result ≡ begins_no_text byte }
{
    let low = byte % 128;
    low >= 0x01 && low < 0x20
}

// The pair that stands for one, of which bytes may have bad parity. It is null where the first byte has it, or where that is from 01 to 1F
// and the second has it. It has a solid block as the second byte where that alone has it.
fn concealed(pair: Pair) -> Pair
    ensures { result ≡ concealed pair }
{
    if !is_odd(pair.a) {
        return NULL_PAIR;
    }
    if is_odd(pair.b) {
        return pair;
    }
    if begins_no_text(pair.a) {
        NULL_PAIR
    } else {
        Pair {
            a: pair.a,
            b: BLOCK,
        }
    }
}

// Applies pairs to a field, in order, each as what stands for it.
pub(crate) fn apply_pairs(field: &mut Field, pairs: &[Pair])
    ensures { (in_field : FieldNumber) (before : List PairOf) → Leads in_field before field.old
        → Leads in_field (reverse (map concealed pairs.now) ++ before) field.new }
{
    for pair in pairs {
        field.apply(concealed(*pair));
    }
}
