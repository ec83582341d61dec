ghost use Rattle.std.specs.Prelude.{◌≡◌, [], ◌∷◌, ◌++◌, OnOk, OnErr};
ghost use Rattle.cue_types.specs.Coloured.{coloured};

use crate::cue::Run;
use dtvcc_codes::PenColors;
use std::alloc::AllocError;
use std::marker::Model;

/// The runs of a cue, seen as the list of them in the order of their records.
#[derive(Drop)]
pub struct Runs {
    items: Vec<Run>,
}

impl Model for Runs {
    ghost use Rattle.std.specs.Prelude.{List};
    ghost use Rattle.cue_types.specs.declared.cue.Run.{Run};

    ghost Value = { List Run };

    ghost view = { λ r. r.items.items };
}

impl Runs {
    /// These runs, which takes no memory.
    pub fn from_vec(items: Vec<Run>) -> Runs
        ensures { result ≡ items.items }
    {
        Runs { items }
    }

    /// The runs, which takes no memory.
    pub fn into_vec(self) -> Vec<Run>
        ensures { result.items ≡ self }
    {
        self.items
    }

    /// The runs in order.
    pub fn as_slice(&self) -> &[Run]
        ensures { result.now ≡ self.now }
    {
        self.items.as_slice()
    }

    /// Adds a run at the end. Without memory the runs stay as they were.
    pub fn push(&mut self, run: Run) -> Result<(), AllocError>
        ensures ok { OnOk result (self.new ≡ self.old ++ run ∷ []) }
        ensures err { OnErr result (self.new ≡ self.old) }
    {
        self.items.push(run)?;
        Ok(())
    }

    /// Gives the last run these colours; where there is none, nothing changes.
    pub fn colour_last(&mut self, colours: PenColors)
        ensures { self.new ≡ coloured colours self.old }
    {
        let count = self.items.len();
        if count > 0 {
            self.items[count - 1].colors = Some(colours);
        }
    }
}
