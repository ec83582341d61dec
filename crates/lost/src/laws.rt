//! Laws of the definitions: functions without a body, whose contract is the law.

ghost use Rattle.lost.specs.Delivered.{GreatestIsLastLost, LastLostIsFound};
ghost use Rattle.lost.specs.Numbers.{FramesAreNumbered, MissingAreCounted};
ghost use Rattle.lost.specs.Recovered.{ConcealerRecovers, DeliveredAreConcealed, LossIsRecovered};

/// Where any frame is lost before one that came, there is a last one that is: the greatest frame below it that didn't come.
pub fn last_lost_is_found()
    ensures found { LastLostIsFound }
    ensures greatest { GreatestIsLastLost }
{}

/// The words of the frames of a placed list that came are a words file whose caption channel is whole, whichever frames are lost: no
/// reader refuses them. A concealing receiver that was fed them, in any pieces, conceals just the packets that came.
pub fn delivered_are_concealed()
    ensures { DeliveredAreConcealed }
{}

/// Of a placed list that is in form and keeps the rules, at any rate, let any frames be lost, but fewer than 65,536 in a row. At each frame
/// that comes a concealing receiver shows the authored grids of CC1 and CC3, where the channel is in step and the frame is settled for it. It
/// shows blank grids on CC2 and CC4, and in each service that is in step the authored windows. A channel is in step where no frame was lost
/// before, where it has no cue, or where a cue resynchronises it after the last lost frame and has its SHOW by then. A service is in step
/// where none was lost before, or each of its cues that isn't hidden by then has its LOAD after the last lost frame. Nothing is promised in
/// between.
pub fn loss_is_recovered()
    ensures { LossIsRecovered }
{}

/// The same of the program's receiver: once a `Concealer` was fed the words of the frames that came, its `cell` answers the authored
/// cells, and its `window` the authored windows.
pub fn concealer_recovers()
    ensures { ConcealerRecovers }
{}

/// Of the frames of a placed list that came, let the first be below 65,536. A concealing receiver tells the last one's own number, and
/// as many missing before it as lie between it and the one that came before.
pub fn frames_are_numbered()
    ensures numbers { FramesAreNumbered }
    ensures missing { MissingAreCounted }
{}
