ghost use Rattle.std.specs.Prelude.{◌≡◌, ◌+◌, ◌++◌, ◌∷◌, [], ℕ, List, length};
ghost use Rattle.csv.specs.Records.{fields_of};
ghost use Rattle.cue_form.specs.Records.{Record};
ghost use Rattle.cue_records.specs.CueApart.{AnswersCue, IsHead, kind_of, read_apart, role_of};
ghost use Rattle.cue_records.specs.CueReading.{HasTaken};
ghost use Rattle.cue_records.specs.declared.record_role.RecordRole.TheVariants.{Continues, Opens};
ghost use Rattle.cue_types.specs.declared.head.Head.{Head as HeadOf};

use csv::ByteRecord;
use cue_form::fault::in_record;
use cue_form::{CueFault, Draft, out_of_form};
use cue_types::{Cue, Head};
use std::alloc::Global;

/// A cue whose records are taken one by one, of a list that has its head already. After a fault the cue's further records are passed
/// over.
#[derive(Drop)]
pub struct CueReader {
    read: Result<Draft, CueFault>,
}

impl CueReader {
    /// Takes the record that opens a cue, of this number in its file, of a list that has this head.
    pub fn begin(alloc: Global, head: Head, row: &ByteRecord, rec: u32) -> CueReader
        requires head { IsHead head }
        requires opens { role_of (kind_of (fields_of row.now)) ≡ Opens }
        ensures { HasTaken head rec (fields_of row.now ∷ []) result }
    {
        let mut draft = Draft::headed(alloc, head);
        match draft.take(alloc, row) {
            Ok(()) => CueReader { read: Ok(draft) },
            Err(offence) => CueReader {
                read: Err(in_record(offence, rec)),
            },
        }
    }

    /// Takes the next record, which continues the cue: of a window's attributes, of a run or of its colours.
    pub fn take(&mut self, alloc: Global, row: &ByteRecord, rec: u32)
        requires { role_of (kind_of (fields_of row.now)) ≡ Continues }
        ensures { (head : HeadOf) (number : ℕ) (records : List Record)
            → HasTaken head number records self.old → rec ≡ number + length records
            → HasTaken head number (records ++ fields_of row.now ∷ []) self.new }
    {
        let taken = match &mut self.read {
            Ok(draft) => draft.take(alloc, row),
            Err(_) => return,
        };
        if let Err(offence) = taken {
            self.read = Err(in_record(offence, rec));
        }
    }

    /// The cue at the end of its records, where the next record would have this number.
    pub fn finish(self, rec: u32) -> Result<Cue, CueFault>
        ensures { (head : HeadOf) (number : ℕ) (records : List Record)
            → HasTaken head number records self → rec ≡ number + length records
            → AnswersCue head (read_apart head number records) result }
    {
        let draft = match self.read {
            Ok(draft) => draft,
            Err(fault) => return Err(fault),
        };
        let Some(cue) = draft.into_last() else {
            return Err(in_record(out_of_form(1), rec));
        };
        if cue.runs.as_slice().is_empty() {
            return Err(in_record(out_of_form(1), rec));
        }
        Ok(cue)
    }
}
