ghost use Rattle.std.specs.Prelude.{◌≡◌, ◌+◌, ◌<◌, ◌≤◌, ◌++◌, length};
ghost use Rattle.arrayvec.specs.ArrayVec.{array_vec_len};
ghost use Rattle.service_blocks.specs.Written.{block_written};

use crate::open_block::EXTENDED;
use arrayvec::ArrayVec;

/// Appends the block of 1 to 31 bytes of a service, 1 to 63, for which there is room: one header byte more for the services 1 to 6,
/// and two for the others.
pub fn write_block<const N: usize>(service: u8, bytes: &[u8], out: &mut ArrayVec<u8, N>)
    requires least { 1 ≤ service }
    requires most { service ≤ 63 }
    requires some { 1 ≤ length bytes.now }
    requires few { length bytes.now ≤ 31 }
    requires room { array_vec_len out.old + length (block_written service bytes.now) ≤ N }
    ensures { out.new.items ≡ out.old.items ++ block_written service bytes.now }
{
    let size = bytes.len() as u8;
    if service < EXTENDED {
        out.push(32 * service + size);
    } else {
        out.push(32 * EXTENDED + size);
        out.push(service);
    }
    if out.try_extend_from_slice(bytes).is_err() {
        unreachable!();
    }
}
