use crate::why::Why;

/// What a reader makes of one item.
#[derive(Clone, Copy, PartialEq, Eq)]
pub enum Step<P> {
    /// The item completes no part.
    Nothing,
    /// It completes this part.
    One(P),
    /// It completes these two parts, the first one first.
    Two(P, P),
    /// It is refused.
    Refuse(Why),
}
