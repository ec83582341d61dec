use cc_base::Refusal;
use findings::Finding;

/// Why bytes that were fed aren't read on.
#[derive(Clone, Copy, PartialEq, Eq)]
pub enum FeedFault {
    /// This word is refused: no file can continue with it.
    Refused(Refusal),
    /// This was found, at a frame that ended before.
    Found(Finding),
    /// 4,294,967,295 frames have ended, and no more can be counted.
    TooManyFrames,
}
