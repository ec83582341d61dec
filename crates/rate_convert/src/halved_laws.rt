//! Laws of the definitions: functions without a body, whose contract is the law.

ghost use Rattle.std.specs.Prelude.{◌≡◌, ℕ, ◌*◌, ◌≤◌};
ghost use Rattle.cc_base.specs.Rate.{delay_frames_of};
ghost use Rattle.cc_base.specs.declared.rate.Rate.TheVariants.{F2997, F5994};
ghost use Rattle.rate_convert.specs.ConvertedFrames.{ConvertedAreFile, ConvertedAreHalves, HalvesHaveTen, TripletsAreCut};
ghost use Rattle.rate_convert.specs.HalvedFrames.{HalvedFramesTellHalves};
ghost use Rattle.rate_convert.specs.HalvedServices.{HalvesShowAlike};
ghost use Rattle.rate_convert.specs.ShownAlike.{DelayedHalvesShowTheSame, HalvesShowTheSame};
ghost use Rattle.rate_convert.specs.UndelayedServices.{HalvesAreOne};

/// After each frame that is cut in halves a service shows what it shows after the whole frame, where each delay lasts twice as many
/// frames at twice the rate (CTA-708-E, Delay).
pub fn law_of_delayed_services()
    ensures { HalvesShowAlike }
{}

/// Where no delay is sent the service is the same, with resets too.
pub fn law_of_undelayed_services()
    ensures { HalvesAreOne }
{}

/// A delay of at most 166 tenths of a second lasts twice as many frames at twice the rate.
pub fn delays_are_twice()
    ensures { (tenths : ℕ) → tenths ≤ 166
        → delay_frames_of F5994 tenths ≡ 2 * delay_frames_of F2997 tenths }
{}

/// Frames that are cut in halves tell each service the same in halves, and each field has the same pairs.
pub fn law_of_halved_frames()
    ensures { HalvedFramesTellHalves }
{}

/// After frames that are cut in halves a receiver shows the same: the grids of line 21 always, and the windows of a service that is
/// sent no delay.
pub fn law_of_shown_halves()
    ensures { HalvesShowTheSame }
{}

/// So it does of a service with delays, whose bytes neither reset nor cancel and never fill its buffer, where each delay lasts twice as
/// many frames at twice the rate.
pub fn law_of_shown_delays()
    ensures { DelayedHalvesShowTheSame }
{}

/// The halves of triplets have what the triplets have, where these have at most one of each field.
pub fn law_of_cut_triplets()
    ensures { TripletsAreCut }
{}

/// Each half of a frame that can be converted has ten triplets.
pub fn law_of_ten_triplets()
    ensures { HalvesHaveTen }
{}

/// Frames that can be converted become their halves.
pub fn law_of_converted_frames()
    ensures { ConvertedAreHalves }
{}

/// And what the frames of a words file become is a words file, over all layers.
pub fn law_of_converted_files()
    ensures { ConvertedAreFile }
{}
