//! Laws of the definitions: functions without a body, whose contract is the law.

ghost use Rattle.mcc_commands.specs.Imports.{ImportsAreOne, NothingOffendsInImports, OffencesAreOne, OffencesStay, PacketsGoOn, WordsAreOne, WordsGoOn};
ghost use Rattle.mcc_commands.specs.Standing.{ImportsAreWordsFiles, ImportsStandApart, ImportsStandAtTheirFrames};
ghost use Rattle.mcc_commands.specs.EveryInput.{EveryInputIsOne};

/// The words of an MCC file's packets are one list of bytes, and where more packets stand after packets, their words begin with the words
/// of these.
pub fn words_are_one()
    ensures one { WordsAreOne }
    ensures on { WordsGoOn }
{}

/// Where an MCC file begins with another one, its packets begin with the packets of that one.
pub fn packets_go_on()
    ensures { PacketsGoOn }
{}

/// Bytes have one import, in which nothing offends: no word of an item, and no byte of the file.
pub fn imports_are_one()
    ensures one { ImportsAreOne }
    ensures unoffending { NothingOffendsInImports }
{}

/// What an import puts of a file is a words file over all layers. Its frames are the frames of its packets of captions in their order,
/// each after the frames without captions that are missing before it. Where no two of these are at one frame of the day, each stands at
/// its own, counted from the first one's.
pub fn imports_are_words_files()
    ensures file { ImportsAreWordsFiles }
    ensures apart { ImportsStandApart }
    ensures times { ImportsStandAtTheirFrames }
{}

/// Bytes have one first offence: one place, and one reason; and where something offends in them, it does whatever follows.
pub fn offences_are_one()
    ensures one { OffencesAreOne }
    ensures stay { OffencesStay }
{}

/// Every input is an MCC file within the limits whose words are a words file, or has a first offence, or has the line of a packet with which
/// a limit is passed.
pub fn every_input_is_imported_or_offends_or_passes_a_limit()
    ensures { EveryInputIsOne }
{}
