//! Laws of the definitions: functions without a body, whose contract is the law.

ghost use Rattle.words_commands.specs.PacketLines.{AllPacketsAreShown};

/// The packets that are shown frame by frame are those that are read in all pairs of field 2 of the file.
pub fn all_packets_are_shown()
    ensures { AllPacketsAreShown }
{}
