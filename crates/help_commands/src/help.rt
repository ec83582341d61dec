ghost use Rattle.std.specs.Prelude.{ℕ, [], Some};
ghost use Rattle.command_base.specs.Ends.{ends};
ghost use Rattle.command_base.specs.Realises.{RealisesLeaving};
ghost use Rattle.help_commands.specs.Pages.{page_text};
ghost use Rattle.help_commands.specs.TextVerdict.{TextVerdict};

use crate::page::{Page, text_of};
use crate::texts::VERSION_LINE;
use cc_base::{Put, Sink};
use command_base::Status;

/// Puts a page of help. Nothing is read.
pub fn run_help<O: Sink>(page: Page, out: &mut O) -> Status
    ensures { (reads : ℕ) → RealisesLeaving (TextVerdict (page_text page))
        (ends (Some []) reads (O.written out.old) (O.faults out.old))
        (ends (Some []) reads (O.written out.new) (O.faults out.new)) result }
{
    put_text(text_of(page), out)
}

/// Puts the name of the program and its version. Nothing is read.
pub fn run_version<O: Sink>(out: &mut O) -> Status
    ensures { (reads : ℕ) → RealisesLeaving (TextVerdict VERSION_LINE.now)
        (ends (Some []) reads (O.written out.old) (O.faults out.old))
        (ends (Some []) reads (O.written out.new) (O.faults out.new)) result }
{
    put_text(VERSION_LINE, out)
}

/// Puts a text at once.
fn put_text<O: Sink>(text: &[u8], out: &mut O) -> Status
    ensures { (reads : ℕ) → RealisesLeaving (TextVerdict text.now)
        (ends (Some []) reads (O.written out.old) (O.faults out.old))
        (ends (Some []) reads (O.written out.new) (O.faults out.new)) result }
{
    match out.put(text) {
        Put::Done => Status::Ok,
        Put::Failed => Status::WriteFault,
    }
}
