ghost use Rattle.std.specs.Prelude.{◌≡◌, ◌∷◌, [], ℕ, List, IfOk};
ghost use Rattle.csv.specs.Machine.{next_record};
ghost use Rattle.csv.specs.Reading.{default_config, strip_bom};
ghost use Rattle.csv.specs.Records.{fields_of};
ghost use Rattle.csv.specs.declared.parser.State.TheVariants as st;
ghost use Rattle.cue_form.specs.Records.{Record};
ghost use Rattle.cue_records.specs.RecordEnds.{GivesRead};

use crate::record_state::RecordState;
use csv::{ByteRecord, ReaderBuilder};
use std::alloc::{AllocError, Global};

/// Finds the records of CSV (RFC 4180) in bytes that come in any pieces. A record is given with the first byte of its line break, so
/// nothing after it is waited for.
#[derive(Drop)]
pub struct RecordReader {
    state: RecordState,
    held: Vec<u8>,
}

impl RecordReader {
    ghost use Rattle.cue_records.specs.RecordsCut.{Cuts, EndsRows, Gathers, HasCut, IsOpen};

    /// A reader that was fed nothing.
    pub fn new(alloc: Global) -> Result<RecordReader, AllocError>
        ensures { IfOk result (HasCut [] []) }
    {
        let mut held = Vec::new(alloc);
        held.push(b'\n')?;
        Ok(RecordReader {
            state: RecordState::Start,
            held,
        })
    }

    /// Reads bytes up to the end of a record at most. Gives the number of bytes read where a record ended, which is then in `row`, and
    /// None where all were read and none ended. After Memory the reader is of no further use.
    pub fn feed(
        &mut self,
        alloc: Global,
        bytes: &[u8],
        row: &mut ByteRecord,
    ) -> Result<Option<usize>, AllocError>
        ensures { (before : List ℕ) (rows : List Record) → HasCut before rows self.old
            → IfOk result (λ used. Cuts before rows bytes.now (fields_of row.new) used self.new) }
    {
        let Some(used) = self.gather(bytes)? else {
            return Ok(None);
        };
        self.give(alloc, row)?;
        Ok(Some(used))
    }

    /// Reads the record that is open at the end of the bytes, and says whether there was one.
    pub fn finish(mut self, alloc: Global, row: &mut ByteRecord) -> Result<bool, AllocError>
        ensures { (bytes : List ℕ) (rows : List Record) → HasCut bytes rows self
            → IfOk result (EndsRows bytes rows (fields_of row.new)) }
    {
        self.give(alloc, row)
    }

    /// Holds bytes up to the end of a record at most, and gives their number where one ended.
    fn gather(&mut self, bytes: &[u8]) -> Result<Option<usize>, AllocError>
        ensures { (begun : List ℕ) → IsOpen begun self.old
            → IfOk result (λ used. Gathers begun bytes.now used self.new) }
    {
        for (i, byte) in bytes.iter().enumerate() {
            self.held.push(*byte)?;
            match self.state.after(*byte) {
                Some(state) => self.state = state,
                None => return Ok(Some(i + 1)),
            }
        }
        Ok(None)
    }

    /// Reads the record that is held, and begins the next one.
    fn give(&mut self, alloc: Global, row: &mut ByteRecord) -> Result<bool, AllocError>
        ensures read { (begun : List ℕ) → self.old.held.items ≡ 10 ∷ begun
            → IfOk result (λ found. GivesRead
            (next_record default_config st.StartRecord [] [] begun) found (fields_of row.new)) }
        ensures begun { (begun : List ℕ) → self.old.held.items ≡ 10 ∷ begun
            → IfOk result (λ _. IsOpen [] self.new) }
    {
        let found = read_first(alloc, self.held.as_slice(), row)?;
        self.held.truncate(1);
        self.state = RecordState::Start;
        Ok(found)
    }
}

/// Reads the first record of a text, and says whether there is one.
fn read_first(alloc: Global, text: &[u8], row: &mut ByteRecord) -> Result<bool, AllocError>
    ensures { IfOk result (λ found. GivesRead
        (next_record default_config st.StartRecord [] [] (strip_bom text.now)) found
        (fields_of row.new)) }
{
    let mut reader = ReaderBuilder::new()
        .has_headers(false)
        .flexible(true)
        .from_reader(alloc, text);
    match reader.read_byte_record(row) {
        Ok(found) => Ok(found),
        Err(_) => Err(AllocError),
    }
}
