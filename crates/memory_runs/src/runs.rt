ghost use Rattle.std.specs.Prelude.{◌≡◌, IfOk, map, string_bytes};
ghost use Rattle.memory_runs.specs.Runs.{IsAnswered, SaysStatus};

use crate::given::Given;
use cc_base::{MemorySink, MemorySource};
use ccsuite_cli::{Status, run};
use std::alloc::{AllocError, Global};

/// How a run ended, and what it put to its output and error output.
#[derive(Drop)]
pub struct Ended {
    /// The status with which it ended.
    pub status: Status,
    /// The output.
    pub out: MemorySink,
    /// The error output, which takes 300 bytes.
    pub err: MemorySink,
}

/// The words of a command line. The error is out of memory.
pub fn words_of(alloc: Global, words: &[&str]) -> Result<Vec<String>, AllocError>
    ensures { IfOk result (λ all. map string_bytes all.items ≡ map (λ word. word.now) words.now) }
{
    let mut all = Vec::new(alloc);
    for word in words {
        all.push(String::from_str(alloc, word)?)?;
    }
    Ok(all)
}

/// Runs the program on what is given. The error is out of memory for the run's ends.
pub fn run_to_end(alloc: Global, given: Given<'_>) -> Result<Ended, AllocError>
    ensures answer { IfOk result (IsAnswered given.entry) }
    ensures line { IfOk result SaysStatus }
{
    let words = words_of(alloc, given.words)?;
    let mut input = MemorySource::new(
        given.text.to_vec(alloc)?,
        [given.piece].to_vec(alloc)?,
        given.failing_takes.to_vec(alloc)?,
    );
    let mut side = MemorySource::new(
        given.side.to_vec(alloc)?,
        Vec::new(alloc),
        given.failing_side.to_vec(alloc)?,
    );
    let mut out = MemorySink::new(alloc, given.room, given.failing_puts.to_vec(alloc)?)?;
    let mut err = MemorySink::new(alloc, 300, given.failing_line.to_vec(alloc)?)?;
    let status = run(alloc, &words, &mut input, &mut side, &mut out, &mut err);
    Ok(Ended { status, out, err })
}
