ghost use Rattle.std.specs.Prelude.{◌≡◌, ◌+◌, ◌≤◌, ◌++◌, length};
ghost use Rattle.arrayvec.specs.ArrayVec.{array_vec_len};

use arrayvec::ArrayVec;

// Appends a piece, for which there is room.
pub(crate) fn append<const ROOM: usize>(out: &mut ArrayVec<u8, ROOM>, piece: &[u8])
    requires { array_vec_len out.old + length piece.now ≤ ROOM }
    ensures { out.new.items ≡ out.old.items ++ piece.now }
{
    if out.try_extend_from_slice(piece).is_err() {
        unreachable!();
    }
}
