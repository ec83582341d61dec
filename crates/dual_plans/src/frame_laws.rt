//! Laws of such frames: functions that do nothing, with the laws as their contracts.
ghost use Rattle.dual_plans.specs.DualBlocks.{DualBlocksAreFit};
ghost use Rattle.dual_plans.specs.DualPairs.{DualFramesAreSound, DualPairsAreFit};
ghost use Rattle.dual_plans.specs.DualShown.{BothListsAreShown};

/// At each frame that is settled for a channel by its own list, CC1 and CC3 show what the first list authors, and CC2 and CC4 what the
/// second one does.
pub fn both_lists_are_shown()
    ensures { BothListsAreShown }
{}

/// The service blocks are the first list's alone: they are fit, and each service shows what it shows of that list.
pub fn dual_blocks_are_fit()
    ensures { DualBlocksAreFit }
{}

/// Control pairs are sent twice, and all pairs are bytes.
pub fn dual_pairs_are_fit()
    ensures { DualPairsAreFit }
{}

/// So the frames are carried by a words file, each in its room, with a whole caption channel of which no byte fills the buffer of a
/// service, and a receiver gets just their pairs.
pub fn dual_frames_are_sound()
    ensures { DualFramesAreSound }
{}
