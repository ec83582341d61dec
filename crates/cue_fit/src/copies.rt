ghost use Rattle.std.specs.Prelude.{◌≡◌, IfOk};

use cue_lists::{Cue, Run, Runs, Text};
use std::alloc::{AllocError, Global};

/// Copies of cues, in their order.
pub fn copies(alloc: Global, cues: &[Cue]) -> Result<Vec<Cue>, AllocError>
    ensures { IfOk result (λ copies. copies.items ≡ cues.now) }
{
    let mut copies = Vec::new(alloc);
    for cue in cues {
        copies.push(copy_of(alloc, cue)?)?;
    }
    Ok(copies)
}

/// A copy of a cue.
pub fn copy_of(alloc: Global, cue: &Cue) -> Result<Cue, AllocError>
    ensures { IfOk result (λ copy. copy ≡ cue.now) }
{
    Ok(Cue {
        load: cue.load,
        show: cue.show,
        hide: cue.hide,
        kind: cue.kind,
        runs: copy_of_runs(alloc, &cue.runs)?,
    })
}

/// A copy of the runs of a cue.
fn copy_of_runs(alloc: Global, runs: &Runs) -> Result<Runs, AllocError>
    ensures { IfOk result (λ copy. copy ≡ runs.now) }
{
    let runs = runs.as_slice();
    let mut copies = Vec::new(alloc);
    for run in runs {
        copies.push(copy_of_run(alloc, run)?)?;
    }
    Ok(Runs::from_vec(copies))
}

/// A copy of a run.
fn copy_of_run(alloc: Global, run: &Run) -> Result<Run, AllocError>
    ensures { IfOk result (λ copy. copy ≡ run.now) }
{
    Ok(Run {
        row: run.row,
        col: run.col,
        pen: run.pen,
        text: Text::from_vec(run.text.as_slice().to_vec(alloc)?),
        colors: run.colors,
    })
}
