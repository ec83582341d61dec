ghost use Rattle.csv.specs.Machine.{step};
ghost use Rattle.csv.specs.Reading.{default_config};
ghost use Rattle.cue_records.specs.RecordEnds.{LeadsTo, csv_state};

/// Where a reader stands in a record of CSV (RFC 4180).
#[derive(Clone, Copy, PartialEq, Eq)]
pub(crate) enum RecordState {
    /// Before its first byte.
    Start,
    /// Before the first byte of a further field.
    Field,
    /// In a field that isn't in quotes.
    Plain,
    /// In quotes.
    Quoted,
    /// After a quote in quotes, which ends them or is the first of two.
    Quote,
}

impl RecordState {
    /// Where it stands after the next byte; None if the record ends with this byte.
    pub(crate) fn after(self, byte: u8) -> Option<RecordState>
        ensures { LeadsTo (step default_config (csv_state self) byte) result }
    {
        match (self, byte) {
            (RecordState::Start, b'\r' | b'\n') => Some(RecordState::Start),
            (RecordState::Start | RecordState::Field, b'"') => Some(RecordState::Quoted),
            (RecordState::Quoted, b'"') => Some(RecordState::Quote),
            (RecordState::Quoted, _) => Some(RecordState::Quoted),
            (RecordState::Quote, b'"') => Some(RecordState::Quoted),
            (_, b',') => Some(RecordState::Field),
            (_, b'\r' | b'\n') => None,
            (_, _) => Some(RecordState::Plain),
        }
    }
}
