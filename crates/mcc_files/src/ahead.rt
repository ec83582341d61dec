ghost use Rattle.std.specs.Prelude.{◌≡◌, MatchOption};
ghost use Rattle.mcc_files.specs.Ahead.{AreItemsAhead, IsItemAhead};

use crate::letters::letter_bytes;
use crate::payload_reader::ROOM;
use arrayvec::ArrayVec;
use hex_digits::hex_value;

/// Adds the bytes of the item with which a text begins, and gives what follows it. None where the text begins with none, or there is no
/// room for its bytes; then nothing is added.
fn add_item<'a>(text: &'a [u8], bytes: &mut ArrayVec<u8, ROOM>) -> Option<&'a [u8]>
    ensures { MatchOption result (bytes.new.items ≡ bytes.old.items)
        (λ rest. IsItemAhead text.now rest.now bytes.old.items bytes.new.items) }
{
    let (first, behind) = text.split_first()?;
    if let Some(brought) = letter_bytes(*first) {
        return match bytes.try_extend_from_slice(brought) {
            Ok(()) => Some(behind),
            Err(_) => None,
        };
    }
    let high = hex_value(*first)?;
    let (second, behind) = behind.split_first()?;
    let low = hex_value(*second)?;
    if bytes.is_full() {
        return None;
    }
    bytes.push(16 * high + low);
    Some(behind)
}

/// Adds the bytes of the items with which a text begins, as far as there is room for them, and gives what follows these items.
pub(crate) fn add_items<'a>(text: &'a [u8], bytes: &mut ArrayVec<u8, ROOM>) -> &'a [u8]
    ensures { AreItemsAhead text.now result.now bytes.old.items bytes.new.items }
{
    let mut rest = text;
    while let Some(behind) = add_item(rest, bytes) {
        rest = behind;
    }
    rest
}
