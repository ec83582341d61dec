//! Laws of what the commands of SCC files put: functions that do nothing, with the laws as their contracts.
ghost use Rattle.std.specs.Prelude.{◌≡◌, ◌++◌, List, ℕ, Some, None};
ghost use Rattle.cdp_packets.specs.Packets.{Frame};
ghost use Rattle.scc_files.specs.SccFiles.{AreBytes, AreRising, IsSccFile};
ghost use Rattle.scc_files.specs.Stretches.{ending};
ghost use Rattle.scc_files.specs.Written.{counted, pairs_not_null, stretches_of, written_file};
ghost use Rattle.time_codes.specs.Frames.{frame_number};
ghost use Rattle.time_codes.specs.declared.time_code.TimeCode.{TimeCode as Time};
ghost use Rattle.words_files.specs.Frames.{IsFileOf};
ghost use Rattle.scc_commands.specs.ComeBack.{PairsComeBack};
ghost use Rattle.scc_commands.specs.Export.{AreExported, export_file, export_front, exported_from};
ghost use Rattle.scc_commands.specs.Import.{PlacedPairs, import_packets};

/// The law that the front of a file which `export` puts is the file without what ends it: the two line ends after its last line,
/// if it has one.
pub fn front_and_end_are_the_file()
    ensures { (time : Time) (frames : List Frame)
        → export_front time frames
        ++ ending (stretches_of (exported_from 0 frames)) ≡ export_file time frames }
{}

/// The law that what is imported is exported again: the words of an SCC file's pairs are exported as the written form of these pairs. So a
/// file in written form, imported and exported with the time code of its first line, is given back byte for byte.
pub fn import_is_exported_again()
    ensures { (time : Time) (pairs : PlacedPairs) → AreRising 0 pairs → AreBytes pairs
        → export_file time (import_packets pairs)
        ≡ written_file (frame_number time) time.drop_frame pairs }
{}

/// The law that what is exported is an SCC file of just the pairs that were exported and aren't null: each at its own frame, where frame
/// 0 has the same time code, and else at its frame less that of the first of them.
pub fn exported_words_are_an_scc_file()
    ensures placed { (time : Time) (frames : List Frame) (bytes : List ℕ)
        → IsFileOf frames bytes → AreExported time frames
        → IsSccFile (Some (frame_number time)) (pairs_not_null (exported_from 0 frames))
        (export_file time frames) }
    ensures counted { (time : Time) (frames : List Frame) (bytes : List ℕ)
        → IsFileOf frames bytes → AreExported time frames
        → IsSccFile None (counted (pairs_not_null (exported_from 0 frames))) (export_file time frames) }
{}

/// The law that what is exported and imported again with the same time code comes back at its place: of what `export` makes of words,
/// `import` makes the words that carry the same pairs in the same frames, but for null pairs, and no others.
pub fn pairs_come_back()
    ensures { PairsComeBack }
{}
