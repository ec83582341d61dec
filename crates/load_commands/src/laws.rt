//! Laws of the lists: functions without a body, whose contract is the law.
ghost use Rattle.load_commands.specs.LoadLaws.{LoadsAreFormed, LoadsArePlaced, LoadsAreRuled, LoadsAreWritten};

/// The law that the list of each number of captions, 1 to 10,000, is in its form.
pub fn loads_are_formed()
    ensures { LoadsAreFormed }
{}

/// The law that it keeps the rules.
pub fn loads_are_ruled()
    ensures { LoadsAreRuled }
{}

/// The law that what is written of it is within the limit of a list's bytes, and spells it.
pub fn loads_are_written()
    ensures { LoadsAreWritten }
{}

/// The law that the units of the list of each number of captions, 1 to 10,000, have their earliest placement in every lane.
pub fn loads_are_placed()
    ensures { LoadsArePlaced }
{}
