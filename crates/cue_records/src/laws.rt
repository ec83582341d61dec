//! Laws of the records of one cue: functions that do nothing, with the laws as their contracts.

ghost use Rattle.cue_records.specs.CueApart.{CueIsReadApart};
ghost use Rattle.cue_records.specs.CueSpelled.{ApartIsFaulty, ApartIsSpelled};

/// The records of one cue give after a list's records what they give by themselves, and offend where they do by themselves.
pub fn cue_is_read_apart()
    ensures { CueIsReadApart }
{}

/// The record of a list's head and the records of a cue spell the list that these give by themselves.
pub fn apart_is_spelled()
    ensures { ApartIsSpelled }
{}

/// And they have their first fault where these have theirs.
pub fn apart_is_faulty()
    ensures { ApartIsFaulty }
{}
