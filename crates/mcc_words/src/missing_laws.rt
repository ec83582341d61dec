//! Laws of the definitions: functions without a body, whose contract is the law.

ghost use Rattle.mcc_words.specs.Standing.{PacketsStandApart, PacketsStandAtTheirFrames, WordsHaveFrames};
ghost use Rattle.mcc_words.specs.Unchanged.{FramesWithoutChangeNothing, FramesWithoutTellTime, MissingFramesChangeNothing};

/// The words of an MCC file are a words file. Its frames are the frames of the packets of captions in their order, each after the frames
/// without captions that are missing before it. As many are missing as lie between its frame of the day and the frame of the packet of
/// captions before it, and none where both are at one frame.
pub fn packets_stand_apart()
    ensures file { WordsHaveFrames }
    ensures apart { PacketsStandApart }
{}

/// Let no two packets of captions be at one frame of the day. Then the words of an MCC file have at each frame of the day its packet of
/// captions, or a frame without captions where it has none. Frames are counted from the frame of the first one, up to the last one's.
pub fn packets_stand_at_their_frames()
    ensures { PacketsStandAtTheirFrames }
{}

/// A frame without captions after whatever frames shows on each channel of line 21 what was shown before it, and in each service too, but
/// where a delay of the service ends in it. It tells each service that time passes and nothing else, and the frames after it tell the
/// services what they tell without it.
pub fn frames_without_change_nothing()
    ensures shown { FramesWithoutChangeNothing }
    ensures told { FramesWithoutTellTime }
{}

/// So no frame that was put for a missing one in the words of an MCC file changes a screen, but where a delay of a service ends in it.
pub fn missing_frames_change_nothing()
    ensures { MissingFramesChangeNothing }
{}
