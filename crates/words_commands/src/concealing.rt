ghost use Rattle.std.specs.Prelude.{◌≡◌, ◌<◌, ◌++◌, ◌∷◌, [], ℕ, List, Option};
ghost use Rattle.cc_conceal.specs.Concealers.{HasConcealed, concealed_frames};
ghost use Rattle.cdp_packets.specs.Packets.{Frame};
ghost use Rattle.words_reading.specs.CaptionChannel.{caption_channel};
ghost use Rattle.text_output.specs.Gathered.{IsGathered, held_of};
ghost use Rattle.text_output.specs.Pages.{Adds};
ghost use Rattle.words_files.specs.FramesOf.{AreFramesOf};
ghost use Rattle.words_reading.specs.FrameTexts.{FramesHalt, FramesSay, MakesFrame};
ghost use Rattle.words_reading.specs.Judging.{StopCause};
ghost use Rattle.words_commands.specs.ConcealedScreens.{lost_line, next_concealed};
ghost use Rattle.words_commands.specs.Screens.{texts_behind};
ghost use Rattle.words_commands.specs.Concealing.{HasJudgedConcealed, HasReadConcealed, ShownLast};

use cc_base::{Put, Refusal, Sink};
use cc_conceal::Concealer;
use grid_print::Shown;
use text_output::Gathered;
use words_reading::{Ended, Judge, Never, Stop};

/// Words on their way through a concealing receiver, and the screens that were shown last.
#[derive(Drop)]
pub struct Concealing {
    pub concealer: Concealer,
    pub shown: Shown,
}

impl Concealing {
    /// Adds the line of the frames that are missing before the one that ended last, and the screens that changed in it.
    fn add_frame<O: Sink>(&mut self, text: &mut Gathered, out: &mut O) -> Result<(), Stop<Never>>
        requires { 0 < concealed_frames self.old.concealer }
        ensures concealer { self.new.concealer ≡ self.old.concealer }
        ensures makes { (start : Option (List ℕ)) (bytes : List ℕ) (frames : List Frame)
            (last : Frame) → ShownLast frames self.old.shown
            → IsGathered start (O.written out.old) (held_of text.old)
            (texts_behind next_concealed [] frames)
            → HasConcealed bytes self.old.concealer
            → AreFramesOf caption_channel (frames ++ last ∷ []) bytes
            → MakesFrame (texts_behind next_concealed []) (λ frames. Unit {0}) ShownLast
            (λ frames last never. ⊥) start (O.written out.new)
            (held_of text.new) frames last self.new.shown result }
        ensures cause { StopCause (O.faults out.old) (O.faults out.new) result }
    {
        let missing = self.concealer.missing();
        let touched = self.concealer.is_touched();
        if missing == 0 && !touched && self.concealer.is_idle() {
            return Ok(());
        }
        let frame = self.concealer.frame();
        text.begin();
        write_lost(missing, frame, text, out);
        self.shown
            .write_changes_of(&self.concealer, frame, text, out);
        match text.answer() {
            Put::Done => Ok(()),
            Put::Failed => Err(Stop::WriteFault),
        }
    }
}

/// Writes the line of frames that are missing before one; nothing where none is.
fn write_lost<O: Sink>(missing: u64, frame: u64, text: &mut Gathered, out: &mut O)
    ensures { Adds O.written O.faults text.old out.old text.new out.new (lost_line missing frame) }
{
    if missing == 0 {
        return;
    }
    text.write(b"lost ", out);
    text.write_long(missing, out);
    text.write(b" before ", out);
    text.write_long(frame, out);
    text.write(b"\n", out);
}

impl Judge for Concealing {
    type Reason = Never;

    ghost Given = { Unit {0} };

    ghost HasRead = { HasReadConcealed };

    ghost HasJudged = { λ given. HasJudgedConcealed };

    ghost Says = { λ given. FramesSay (texts_behind next_concealed []) (λ frames. Unit {0}) };

    ghost Halts = { λ given never.
        FramesHalt (texts_behind next_concealed []) (λ frames. Unit {0}) (λ frames last. ⊥) };

    fn step<O: Sink>(
        &mut self,
        bytes: &[u8],
        text: &mut Gathered,
        out: &mut O,
    ) -> Result<usize, Stop<Never>> {
        let fed = match self.concealer.feed(bytes) {
            Ok(fed) => fed,
            Err(refusal) => return Err(Stop::Refused(refusal)),
        };
        match fed.ended {
            Ended::Caption => {
                self.add_frame(text, out)?;
                Ok(fed.used)
            }
            _ => Ok(fed.used),
        }
    }

    fn end(&self) -> Result<(), Refusal> {
        self.concealer.finish()
    }

    ghost says = { λ given bytes text concealing had.
        (record { frames = had.frames; frames_are = had.frames_are; fit = tt; text_is = had.text_is }, had.unoffending) };
}
