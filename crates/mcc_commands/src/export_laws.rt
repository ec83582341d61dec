//! Laws of what `export-mcc` puts: functions that do nothing, with the laws as their contracts.
ghost use Rattle.std.specs.Prelude.{◌≡◌, ◌<◌, List, ℕ};
ghost use Rattle.cdp_packets.specs.Packets.{Frame};
ghost use Rattle.mcc_commands.specs.ExportMcc.{IsMccOf};
ghost use Rattle.mcc_commands.specs.Placing.{placed};
ghost use Rattle.mcc_commands.specs.declared.start.Start.{Start as StartOf};
ghost use Rattle.mcc_files.specs.MccFiles.{IsMccFile, TimedPackets};
ghost use Rattle.mcc_words.specs.MccWords.{AreMccWords};
ghost use Rattle.services_files.specs.CaptionChannel.{caption_channel};
ghost use Rattle.time_codes.specs.Countings.{day_frames_in};
ghost use Rattle.words_files.specs.Offences.{IsFileUnder};

/// The law that exported packets are written as an MCC file of just these packets, each at its frame.
pub fn exported_words_are_an_mcc_file()
    ensures { (start : StartOf) (frames : List Frame) (file text : List ℕ)
        (is_file : IsFileUnder caption_channel frames file)
        → start.first < day_frames_in start.count
        → IsMccOf start frames file is_file text
        → IsMccFile (placed start.first is_file.file.packets) text }
{}

/// The law that it is imported as it was exported: of whatever packets it is an MCC file, their words are just those that were exported,
/// byte for byte.
pub fn exported_words_are_imported()
    ensures { (start : StartOf) (frames : List Frame) (file text words : List ℕ)
        (is_file : IsFileUnder caption_channel frames file) (other : TimedPackets)
        → start.first < day_frames_in start.count → IsMccOf start frames file is_file text
        → IsMccFile other text → AreMccWords other words → words ≡ file }
{}
