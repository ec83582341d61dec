//! Laws of what a run answers and puts: functions that do nothing, with the laws as their contracts.
ghost use Rattle.ccsuite_cli.specs.Verdict.{EveryInputHasVerdict, FaultsAreTold, VerdictIsAnswered, VerdictIsOne};

/// The law that each command makes one status of any bytes, but for ReadFault and WriteFault.
pub fn verdict_is_one()
    ensures { VerdictIsOne }
{}

/// The law that it makes one of all bytes.
pub fn every_input_has_verdict()
    ensures { EveryInputHasVerdict }
{}

/// The law that a run in which no count of faults rose answers the status that its command makes of the bytes, and has put that text; or
/// Memory, and has put nothing.
pub fn verdict_is_answered()
    ensures { VerdictIsAnswered }
{}

/// The law that every run answers ReadFault where the count of faults of its side file or of its input is greater than before, and
/// WriteFault where the output's is.
pub fn faults_are_told()
    ensures { FaultsAreTold }
{}
