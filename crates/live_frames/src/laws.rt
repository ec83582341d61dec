//! Laws of placed lists: functions that do nothing, with the laws as their contracts.
ghost use Rattle.live_frames.specs.LaneFronts.{ChannelFrontIsKept, ServiceFrontIsKept};
ghost use Rattle.live_frames.specs.Longer.{FrameFrontIsKept, WordFrontIsKept, WordsShareFront};

/// The slots of a line 21 channel don't depend on cues at its end that are loaded later (CTA-608-E).
pub fn law_of_channel_fronts()
    ensures { ChannelFrontIsKept }
{}

/// Nor do the bytes that a service is sent, frame by frame, with any number of delays (CTA-708-E).
pub fn law_of_service_fronts()
    ensures { ServiceFrontIsKept }
{}

/// So what a frame of a list carries doesn't depend on cues at its end that are loaded later, nor on the number of frames.
pub fn law_of_frame_fronts()
    ensures { FrameFrontIsKept }
{}

/// The words of such frames are the same.
pub fn law_of_word_fronts()
    ensures { WordFrontIsKept }
{}

/// Below the least LOAD of the further cues, and below the end of either list, the words of both are the same.
pub fn law_of_shared_fronts()
    ensures { WordsShareFront }
{}
