//! The law of pieces.

ghost use Rattle.std.specs.Prelude.{◌≡◌, ◌++◌, List, Some, None};
ghost use Rattle.std.specs.Result.{result_err};
ghost use Rattle.cc_base.specs.declared.refusal.Refusal.{Refusal as Refused};
ghost use Rattle.cc_base.specs.Feeding.{reading};

use crate::refusal::Refusal;
use crate::resume::{Resume, Upward};

/// Feeds two pieces in turn, which is to feed both at once. The answer, the parts that the layer above was handed and where
/// both come to are what the first piece followed by the second gives. After a refusal the second piece changes nothing.
pub fn feed_pieces<I, P, R: Resume<I, P>, U: Upward<P>>(
    reader: &mut R,
    first: &[I],
    second: &[I],
    up: &mut U,
) -> Result<(), Refusal>
    ensures answer { (given : R.Given) (before : List I) (above : List P)
        → R.Leads given before reader.old → U.Took above up.old
        → result_err result ≡ (reading (R.judge given) U.verdict R.place before above
        (first.now ++ second.now)).refusal }
    ensures handed { (given : R.Given) (before : List I) (above : List P)
        → R.Leads given before reader.old → U.Took above up.old
        → U.Took (above ++ (reading (R.judge given) U.verdict R.place before above
        (first.now ++ second.now)).parts) up.new }
    ensures leads { (given : R.Given) (before : List I) (above : List P)
        → R.Leads given before reader.old → U.Took above up.old
        → result_err result ≡ None
        → R.Leads given (before ++ (first.now ++ second.now)) reader.new }
    ensures kept { (refused : Refused) → R.refusal reader.old ≡ Some refused
        → (result_err result ≡ Some refused) × (reader.new ≡ reader.old) × (up.new ≡ up.old) }
    ensures told { R.refusal reader.new ≡ result_err result }
{
    let _first = reader.feed(first, up);
    reader.feed(second, up)
}
