ghost use Rattle.std.specs.Prelude.{◌≡◌, Some};

use cc_base::{Source, Took};

/// A source over the memory of a caller, which never fails and tells what is left.
#[derive(Drop)]
pub struct SliceSource<'a> {
    left: &'a [u8],
}

impl<'a> SliceSource<'a> {
    ghost use Rattle.caption_streams.specs.Sources.{slice_left};

    /// A source of these bytes.
    pub fn new(bytes: &'a [u8]) -> SliceSource<'a>
        ensures { slice_left result ≡ bytes.now }
    {
        SliceSource { left: bytes }
    }
}

impl Source for SliceSource<'_> {
    ghost use Rattle.caption_streams.specs.Sources.{slice_left};

    ghost left = { λ source. Some (slice_left source) };

    ghost faults = { λ _. 0 };

    fn take(&mut self, buf: &mut [u8]) -> Took {
        let count = self.left.len().min(buf.len());
        if count == 0 {
            return Took::End;
        }
        buf[..count].copy_from_slice(&self.left[..count]);
        self.left = &self.left[count..];
        Took::Got(count)
    }
}
