ghost use Rattle.std.specs.Prelude.{◌≡◌};
ghost use Rattle.csv.specs.Records.{fields_of};
ghost use Rattle.cue_records.specs.CueApart.{kind_of, role_of};

use csv::ByteRecord;
use cue_form::{RecordKind, field};

/// What a record's kind word says of cues.
#[derive(Clone, Copy, PartialEq, Eq)]
pub enum RecordRole {
    /// It opens a cue: `pop`, `paint`, `roll`, `win`.
    Opens,
    /// It continues one: `attr`, `run`, `colour`.
    Continues,
    /// Neither.
    Other,
}

impl RecordRole {
    /// What the kind word of a record says.
    pub fn of(row: &ByteRecord) -> RecordRole
        ensures { result ≡ role_of (kind_of (fields_of row.now)) }
    {
        match RecordKind::of_word(field(row, 0)) {
            Some(RecordKind::Pop | RecordKind::Paint | RecordKind::Roll | RecordKind::Win) =>
                RecordRole::Opens,
            Some(RecordKind::Attr | RecordKind::Run | RecordKind::Colour) => RecordRole::Continues,
            Some(RecordKind::Ccsuite | RecordKind::Share) | None => RecordRole::Other,
        }
    }
}
