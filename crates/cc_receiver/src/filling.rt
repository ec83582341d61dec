ghost use Rattle.std.specs.Prelude.{◌≡◌, ◌≤◌, IfSome, replicate};
ghost use Rattle.cc_data.specs.Triplets.{filler, triplets_of};

use cc_data::{FILLER, Triplet};

/// The most triplets of a packet.
pub(crate) const MOST: usize = 81;

/// The first byte of a filler.
const FIRST: u8 = 0xFA;

/// The bytes of a packet's fillers.
const BYTES: [[u8; 3]; MOST] = [[FIRST, 0x00, 0x00]; MOST];

/// A packet's fillers.
pub(crate) const FILLERS: [Triplet; MOST] = [FILLER; MOST];

/// How many triplets these bytes are, at most 81, where all of them are fillers.
pub(crate) fn count_fillers(bytes: &[u8]) -> Option<usize>
    ensures fillers { IfSome result (λ count. triplets_of bytes.now ≡ replicate count filler) }
    ensures few { IfSome result (λ count. count ≤ 81) }
{
    let [FIRST, ..] = bytes else {
        return None;
    };
    let fillers = BYTES.as_flattened();
    if bytes.len() <= fillers.len() && bytes == &fillers[..bytes.len()] {
        Some(bytes.len() / 3)
    } else {
        None
    }
}
