//! Laws of the definitions: functions without a body, whose contract is the law.

ghost use Rattle.converted_lists.specs.ConvertedLists.{ListsAreFit};
ghost use Rattle.converted_lists.specs.FilledStreams.{StreamsAreGood};
ghost use Rattle.converted_lists.specs.SoundLanes.{SoundLanesAreGood};

/// What a byte completes rests on the bytes before it alone: so whether a stream that never fills the buffer is good is a matter of its
/// bytes.
pub fn law_of_good_streams()
    ensures { StreamsAreGood }
{}

/// What a sound lane sends is a good stream, where its delays have at most 166 tenths.
pub fn law_of_sound_lanes()
    ensures { SoundLanesAreGood }
{}

/// The frames of a placed cue list at 29.97, whose delays have at most 166 tenths, have no misfit: each can be converted, and the same is
/// seen after it.
pub fn law_of_converted_lists()
    ensures { ListsAreFit }
{}
