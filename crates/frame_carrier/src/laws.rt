//! Laws of the definitions: functions without a body, whose contract is the law.

ghost use Rattle.frame_carrier.specs.Carried.{FramesAreCarried};

/// The frames of a programme are carried, at any rate. Their bytes are a words file of their packets, and each frame has as
/// many triplets as its rate asks. Of those that count one has the pair of each field in which it has a slot, and the others
/// are its channel packet. A receiver gets of both fields just the pairs.
pub fn frames_are_carried()
    ensures { FramesAreCarried }
{}
