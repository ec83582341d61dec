//! Laws of the definitions: functions without a body, whose contract is the law.

ghost use Rattle.std.specs.Prelude.{◌<◌, ℕ};
ghost use Rattle.line21_shown.specs.Listing.{IsFormed, Listing};
ghost use Rattle.line21_shown.specs.Rules.{IsRuled};
ghost use Rattle.frame_carrier.specs.Carrying.{column_packets};
ghost use Rattle.frame_carrier.specs.Planned.{Placement, columns_of};
ghost use Rattle.services_shown.specs.Buffers.{BuffersNeverFill};
ghost use Rattle.services_shown.specs.Delays.{AreDelaysSent};
ghost use Rattle.services_shown.specs.PlacedServices.{AreServicesPlaced};
ghost use Rattle.services_shown.specs.SeenWindows.{ShowAuthoredWindows};
ghost use Rattle.services_shown.specs.ServicesCarried.{FramesHaveRoom, ProgrammesAreWhole};
ghost use Rattle.services_shown.specs.Told.{ColumnsAreTold, HighAreUnshared, LikeFramesSayAlike, ServicesAreTold, UnsharedAreSilent};

/// Each frame of a list that keeps the rules has room for its pairs and for its channel packet, in which a service has at most
/// its share. Blocks with their headers have at most 35 bytes, and 17 at 59.94 and 60 frames a second; and its blocks are bytes.
pub fn law_of_frame_room()
    ensures { FramesHaveRoom }
{}

/// The frames of a programme that are carried carry a caption channel: one packet for each frame that has service blocks, with
/// just these blocks.
pub fn law_of_whole_programmes()
    ensures { ProgrammesAreWhole }
{}

/// In frames with whole service blocks each service gets its bytes in these blocks: in each frame a tick, then the bytes, in
/// order. There is no reset, since the frames' packets are numbered one after another.
pub fn law_of_columns_told()
    ensures { ColumnsAreTold }
{}

/// In the frames of a placed list that keeps the rules each service gets the bytes of its lane, frame by frame.
pub fn law_of_services_told()
    ensures { ServicesAreTold }
{}

/// A service of which a list has no share has no caption and no unit, and is sent nothing; a list has shares of services 1 to 6 alone.
pub fn law_of_silent_services()
    ensures silent { UnsharedAreSilent }
    ensures unshared { HighAreUnshared }
{}

/// What services get, and what pairs the fields have, rests on the rate and the triplets of each frame and on nothing else of its
/// packet. So captions say the same in packets of another origin.
pub fn law_of_like_frames()
    ensures { LikeFramesSayAlike }
{}

/// No byte of the frames of a placed list that keeps the rules fills the buffer of a service. At every byte of every service at
/// most 127 bytes are held, with any number of delays.
pub fn law_of_listed_buffers()
    ensures { (list : Listing) (placed : Placement) → IsFormed list → IsRuled list
        → AreServicesPlaced list placed
        → BuffersNeverFill (column_packets list.rate (columns_of list placed) 0 list.frames) }
{}

/// What is authored is what is seen. At every frame of a placed list that keeps the rules each service shows just the windows
/// that the list authors there, with any number of delays; one without cues shows nothing.
pub fn law_of_listed_windows()
    ensures { (list : Listing) (placed : Placement) → IsFormed list → IsRuled list
        → AreServicesPlaced list placed
        → (frame : ℕ) → frame < list.frames
        → ShowAuthoredWindows list.cues
        (column_packets list.rate (columns_of list placed) 0 list.frames) frame }
{}

/// The delay of each window cue of a list that keeps the rules is sent, wherever the units of its services stand: Delay and the
/// DisplayWindows that it puts off in the frame in which it starts, and at SHOW nothing that shows the window.
pub fn law_of_sent_delays()
    ensures { (list : Listing) (placed : Placement) → IsFormed list → IsRuled list
        → AreDelaysSent list placed }
{}
