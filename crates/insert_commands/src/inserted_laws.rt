//! Laws of the definitions: functions without a body, whose contract is the law.
ghost use Rattle.insert_commands.specs.Soundness.{InsertionsAreSound};

/// Let the captions of an accepted list be inserted into a words file of frames of its rate, as many as it has at least. Then the
/// result is a words file of as many frames, fills no service's buffer, and gives none more than its share in a frame. At each of its
/// frames, after the list's end too, it shows the authored grids of the list, wherever the frame is settled, and its authored windows.
pub fn law_of_insertions()
    ensures { InsertionsAreSound }
{}
