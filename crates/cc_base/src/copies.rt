ghost use Rattle.std.specs.Prelude.{◌≡◌, ◌+◌, ◌-◌, ◌≤◌, ◌++◌, min, length, take, drop, vec_len};

/// Copies the bytes from `at` on to the front of `buf`: at most `most` of them, and as many as fit.
pub fn copy_front(bytes: &Vec<u8>, at: usize, most: usize, buf: &mut [u8]) -> usize
    requires { at ≤ vec_len bytes.now }
    ensures count { result ≡ min (min most (vec_len bytes.now - at)) (length buf.old) }
    ensures copied { drop at bytes.now.items
        ≡ take result buf.new ++ drop (at + result) bytes.now.items }
{
    let left = &bytes[at..];
    let count = most.min(left.len()).min(buf.len());
    buf[..count].copy_from_slice(&left[..count]);
    count
}
