ghost use Rattle.std.specs.Prelude.{◌≡◌, ◌≢◌, ◌<◌, Err, IfOk, IfSome, IsErrOf, length};
ghost use Rattle.cc_base.specs.Streams.{IsWhole, Rose, TakesWithin};

use crate::streams::{Source, Took};
use std::alloc::Global;

/// Why an input wasn't read to its end.
#[derive(Clone, Copy, PartialEq, Eq)]
pub enum ReadError {
    /// Out of memory.
    Memory,
    /// The source failed.
    Fault,
    /// The input has more bytes than the limit.
    Limit,
}

/// How many bytes one take asks for.
const CHUNK: usize = 32768;

/// Reads a source to its end, up to a limit in bytes.
pub fn read_whole<S: Source>(
    alloc: Global,
    source: &mut S,
    limit: usize,
) -> Result<Vec<u8>, ReadError>
    ensures whole { IfOk result
        (λ v. IsWhole limit (S.left source.old) (S.left source.new) v.items) }
    ensures fault { IsErrOf result ReadError.Fault
        → Rose (S.faults source.old) (S.faults source.new) }
    ensures in_limit { IsErrOf result ReadError.Fault
        → TakesWithin limit (S.left source.old) (S.left source.new) }
    ensures steady { result ≢ Err ReadError.Fault → S.faults source.new ≡ S.faults source.old }
    ensures limit { IsErrOf result ReadError.Limit
        → IfSome (S.left source.old) (λ bytes. limit < length bytes) }
{
    let mut whole = Vec::new(alloc);
    let mut buf = [0u8; CHUNK];
    loop {
        match source.take(&mut buf) {
            Took::End => return Ok(whole),
            Took::Failed => return Err(ReadError::Fault),
            Took::Got(n) => {
                if n > limit - whole.len() {
                    return Err(ReadError::Limit);
                }
                if whole.extend_from_slice(&buf[..n]).is_err() {
                    return Err(ReadError::Memory);
                }
            }
        }
    }
}
