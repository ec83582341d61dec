//! Laws of the definitions: functions without a body, whose contract is the law.

ghost use Rattle.std.specs.Prelude.{◌≡◌, ◌↔◌, ◌<◌, ℕ, Bool, true, List, Ok, Some};
ghost use Rattle.time_codes.specs.declared.counting.Counting.{Counting as Count};
ghost use Rattle.time_codes.specs.declared.time_code.TimeCode.{TimeCode as Code};
ghost use Rattle.time_codes.specs.Countings.{IsFrameIn, counting_at_30, day_frames_in, frame_in, has_drop_frame, time_in};
ghost use Rattle.time_codes.specs.TimeCodes.{IsFrameOf, day_frames, is_time_code};
ghost use Rattle.time_codes.specs.Frames.{frame_of, time_at};
ghost use Rattle.time_codes.specs.Texts.{IsTimeText, time_of_text};

/// The frame of a time code is how many time codes of the day stand before it that drop frame doesn't leave out.
pub fn frames_count_time_codes()
    ensures counts { (t : Code) (frame : ℕ) → frame_of t ≡ Ok frame → IsFrameOf t frame }
    ensures counted { (t : Code) (frame : ℕ) → IsFrameOf t frame → frame_of t ≡ Ok frame }
{}

/// Frames and time codes of a day are each other's inverse, with drop frame and without.
pub fn frames_and_time_codes_are_inverse()
    ensures frame { (frame : ℕ) (drop_frame : Bool) → frame < day_frames drop_frame
        → frame_of (time_at frame drop_frame) ≡ Ok frame }
    ensures time { (t : Code) (frame : ℕ) → frame_of t ≡ Ok frame → time_at frame t.drop_frame ≡ t }
    ensures day { (t : Code) (frame : ℕ) → frame_of t ≡ Ok frame → frame < day_frames t.drop_frame }
{}

/// At every rate the frame of a time code is how many time codes of the day stand before it that drop frame doesn't leave out.
pub fn frames_count_time_codes_in_each_count()
    ensures counts { (count : Count) (t : Code) (frame : ℕ) → frame_in count t ≡ Ok frame
        → IsFrameIn count t frame }
    ensures counted { (count : Count) (t : Code) (frame : ℕ) → IsFrameIn count t frame
        → frame_in count t ≡ Ok frame }
{}

/// At every rate frames and time codes of a day are each other's inverse.
pub fn frames_and_time_codes_are_inverse_in_each_count()
    ensures frame { (count : Count) (frame : ℕ) → frame < day_frames_in count
        → frame_in count (time_in count frame) ≡ Ok frame }
    ensures time { (count : Count) (t : Code) (frame : ℕ) → frame_in count t ≡ Ok frame
        → time_in count frame ≡ record t { drop_frame = has_drop_frame count } }
    ensures day { (count : Count) (t : Code) (frame : ℕ) → frame_in count t ≡ Ok frame
        → frame < day_frames_in count }
{}

/// At 30 frames a second these are the frames and time codes of the calls for that rate.
pub fn counts_at_30_frames_a_second()
    ensures frame { (t : Code) → frame_in (counting_at_30 t.drop_frame) t ≡ frame_of t }
    ensures time { (frame : ℕ) (drop_frame : Bool)
        → time_in (counting_at_30 drop_frame) frame ≡ time_at frame drop_frame }
{}

/// A text is read as a time code exactly where it is the time code's text.
pub fn time_texts_are_read()
    ensures { (t : Code) (bytes : List ℕ) → (time_of_text bytes ≡ Some t) ↔ IsTimeText t bytes }
{}
