//! Laws of reading: functions without a body, whose contract is the law.

ghost use Rattle.std.specs.Prelude.{◌≡◌, ℕ, List, Ok, Err};
ghost use Rattle.cc_base.specs.declared.refusal.Refusal.{Refusal as Refused};
ghost use Rattle.mcc_files.specs.MccFiles.{IsMccFile, TimedPackets};
ghost use Rattle.mcc_files.specs.Offences.{IsFirstOffence};
ghost use Rattle.mcc_files.specs.Reading.{read_file};

/// Bytes are read as packets exactly where they are an MCC file of these packets.
pub fn files_are_read()
    ensures read { (placed : TimedPackets) (bytes : List ℕ) → IsMccFile placed bytes
        → read_file bytes ≡ Ok placed }
    ensures files { (placed : TimedPackets) (bytes : List ℕ) → read_file bytes ≡ Ok placed
        → IsMccFile placed bytes }
{}

/// Bytes that aren't read as packets are no MCC file, and their first offence, of which there is one, is the one with which they are
/// refused.
pub fn other_bytes_offend()
    ensures offence { (bytes : List ℕ) (refusal : Refused) → read_file bytes ≡ Err refusal
        → IsFirstOffence bytes refusal }
    ensures refused { (bytes : List ℕ) (refusal : Refused) → IsFirstOffence bytes refusal
        → read_file bytes ≡ Err refusal }
    ensures none { (bytes : List ℕ) (refusal : Refused) (placed : TimedPackets)
        → IsFirstOffence bytes refusal → IsMccFile placed bytes → ⊥ }
    ensures one { (bytes : List ℕ) (one other : Refused) → IsFirstOffence bytes one
        → IsFirstOffence bytes other → one ≡ other }
{}
