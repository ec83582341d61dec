ghost use Rattle.std.specs.Prelude.{◌≡◌, ◌≢◌};
ghost use Rattle.ccsuite_cli.specs.StatusLine.{PutsLine};

use crate::status_line::put_status;
use cc_base::Sink;
use command_base::Status;
use std::io::ErrorKind;

/// Ends a run whose words couldn't be read, for this reason. A word that isn't UTF-8 is no word of a command, so that is
/// Usage; otherwise there was no memory for the words. The status's one line is put to `err`.
pub fn run_without_words<E: Sink>(why: ErrorKind, err: &mut E) -> Status
    ensures usage { why ≡ ErrorKind.InvalidData → result ≡ Status.Usage }
    ensures memory { why ≢ ErrorKind.InvalidData → result ≡ Status.Memory }
    ensures line { PutsLine (E.written err.old) (E.written err.new) (E.faults err.old)
        (E.faults err.new) result }
{
    let status = match why {
        ErrorKind::InvalidData => Status::Usage,
        _ => Status::Memory,
    };
    let _ = put_status(status, err);
    status
}
