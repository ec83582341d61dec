ghost use Rattle.std.specs.Prelude.{◌≡◌, ◌≤◌, IfOk, length};
ghost use Rattle.cc_base.specs.Streams.{whole_limit};
ghost use Rattle.command_base.specs.WholeInput.{IsTooLong, ReadsInput};

use crate::status::Status;
use cc_base::{LimitOf, ReadError, Source, read_whole};
use std::alloc::Global;

/// The most bytes of a cue list or an SCC file.
const WHOLE_LIMIT: usize = 67_108_864;

/// Reads an input to its end: the bytes of a cue list or an SCC file. Gives them, or the status with which it isn't read:
/// ReadFault, Memory, or Limit (Bytes) where it has more than 67,108,864 bytes.
pub fn read_input<M: Source>(alloc: Global, input: &mut M) -> Result<Vec<u8>, Status>
    ensures bytes { ReadsInput (λ bytes value. value.items ≡ bytes) IsTooLong
        (M.left input.old) (M.left input.new) (M.faults input.old) (M.faults input.new) result }
    ensures within { IfOk result (λ bytes. length bytes.items ≤ whole_limit) }
{
    match read_whole(alloc, input, WHOLE_LIMIT) {
        Ok(bytes) => Ok(bytes),
        Err(ReadError::Memory) => Err(Status::Memory),
        Err(ReadError::Fault) => Err(Status::ReadFault),
        Err(ReadError::Limit) => Err(Status::Limit(LimitOf::Bytes)),
    }
}
