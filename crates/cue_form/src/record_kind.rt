ghost use Rattle.std.specs.Prelude.{◌≡◌};
ghost use Rattle.cue_form.specs.Form.{record_kind_of};

use crate::is_word;

/// The kinds of records of a cue list, each named by its first field.
#[derive(Clone, Copy, PartialEq, Eq)]
pub enum RecordKind {
    Ccsuite,
    Share,
    Pop,
    Paint,
    Roll,
    Win,
    Attr,
    Run,
    Colour,
}

impl RecordKind {
    /// The kind that a record's first field names.
    pub fn of_word(word: &[u8]) -> Option<RecordKind>
        ensures { result ≡ record_kind_of word.now }
    {
        if is_word(word, "ccsuite") {
            Some(RecordKind::Ccsuite)
        } else if is_word(word, "share") {
            Some(RecordKind::Share)
        } else if is_word(word, "pop") {
            Some(RecordKind::Pop)
        } else if is_word(word, "paint") {
            Some(RecordKind::Paint)
        } else if is_word(word, "roll") {
            Some(RecordKind::Roll)
        } else if is_word(word, "win") {
            Some(RecordKind::Win)
        } else if is_word(word, "attr") {
            Some(RecordKind::Attr)
        } else if is_word(word, "run") {
            Some(RecordKind::Run)
        } else if is_word(word, "colour") {
            Some(RecordKind::Colour)
        } else {
            None
        }
    }
}
