//! Laws of the definitions: functions without a body, whose contract is the law.

ghost use Rattle.std.specs.Prelude.{ℕ, List};
ghost use Rattle.time_codes.specs.declared.counting.Counting.{Counting as Count};
ghost use Rattle.mcc_files.specs.MccFiles.{IsMccFile, TimedPackets};
ghost use Rattle.mcc_files.specs.Writing.{AreWritable, IsWrittenFile};

/// What is written of packets at frames of a day that never fall is an MCC file of these packets at these frames.
pub fn written_files_are_files()
    ensures { (count : Count) (placed : TimedPackets) (bytes : List ℕ) → AreWritable count 0 placed
        → IsWrittenFile count placed bytes
        → IsMccFile placed bytes }
{}
