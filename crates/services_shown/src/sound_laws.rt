//! Laws of the definitions: functions without a body, whose contract is the law.

ghost use Rattle.services_shown.specs.OtherPairs.{OtherPairsAreFit};
ghost use Rattle.services_shown.specs.PlacedBlocks.{PlacedBlocksAreFit};
ghost use Rattle.services_shown.specs.Showing.{ColumnsAreSeen};
ghost use Rattle.services_shown.specs.Sound.{FitFramesAreSound};

/// Columns whose pairs and service blocks are fit are carried by a words file, each frame in its room, with a whole caption channel
/// of which no byte fills the buffer of a service.
pub fn law_of_fit_frames()
    ensures { FitFramesAreSound }
{}

/// The service blocks of a placed cue list that keeps the rules are fit, and no service gets more than its share in a frame.
pub fn law_of_placed_blocks()
    ensures { PlacedBlocksAreFit }
{}

/// Columns with the service blocks of fit ones, and other pairs in the same slots, have fit blocks too; each service gets the same,
/// keeps to the same share, and shows the same windows.
pub fn law_of_other_pairs()
    ensures { OtherPairsAreFit }
{}

/// What the pairs of columns show is what a receiver shows that takes their words.
pub fn law_of_seen_columns()
    ensures { ColumnsAreSeen }
{}
