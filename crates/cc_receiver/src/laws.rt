//! Laws of the receiver: functions without a body, whose contract is the law.

ghost use Rattle.std.specs.Prelude.{◌≡◌, ◌++◌, ℕ, List, length};
ghost use Rattle.cdp_packets.specs.Packets.{Frame as FrameOf};
ghost use Rattle.line21_codes.specs.declared.channels.Chan.{Chan};
ghost use Rattle.services_files.specs.FramesOf.{AreFramesOf};
ghost use Rattle.services_files.specs.Received.{received_grids};
ghost use Rattle.services_files.specs.CaptionChannel.{caption_channel};
ghost use Rattle.dtvcc_services.specs.Numbers.{IsService};
ghost use Rattle.cc_receiver.specs.ReceivedServices.{received_windows};
ghost use Rattle.cc_receiver.specs.SeenServices.{seen_windows};
ghost use Rattle.cc_receiver.specs.declared.receiver.Receiver.{Receiver as ReceiverOf};
ghost use Rattle.cc_receiver.specs.Receivers.{HasReceived, displayed_grid, frame_count};

/// A receiver counts the frames of the bytes that it was fed, in whatever pieces. It shows what they leave on the screens of a
/// receiver that was reset before the first one, and of the windows of its services.
pub fn receiver_equals_meaning()
    ensures count { (bytes : List ℕ) (frames : List FrameOf) (receiver : ReceiverOf)
        → HasReceived bytes receiver
        → AreFramesOf caption_channel frames bytes → frame_count receiver ≡ length frames }
    ensures shown { (bytes : List ℕ) (frames : List FrameOf) (receiver : ReceiverOf) (chan : Chan)
        → HasReceived bytes receiver
        → AreFramesOf caption_channel frames bytes
        → displayed_grid receiver chan ≡ received_grids frames chan }
    ensures windows { (bytes : List ℕ) (frames : List FrameOf) (receiver : ReceiverOf)
        (service id : ℕ) → HasReceived bytes receiver
        → AreFramesOf caption_channel frames bytes → IsService service
        → seen_windows receiver service id ≡ received_windows frames service id }
{}

/// More bytes that bring no frame leave all screens, and the windows of each service. So where a word is refused, and from then on,
/// they stay as the last whole frame left them.
pub fn refusal_stays()
    ensures shown { (before more : List ℕ) (old new : ReceiverOf) (chan : Chan)
        → HasReceived before old
        → HasReceived (before ++ more) new → frame_count new ≡ frame_count old
        → displayed_grid new chan ≡ displayed_grid old chan }
    ensures windows { (before more : List ℕ) (old new : ReceiverOf) (service id : ℕ)
        → HasReceived before old
        → HasReceived (before ++ more) new → frame_count new ≡ frame_count old → IsService service
        → seen_windows new service id ≡ seen_windows old service id }
{}
