ghost use Rattle.std.specs.Prelude.{◌≡◌, ◌<◌, ◌≤◌, [], IfOk, length};
ghost use Rattle.mcc_files.specs.Writing.{written_head};
ghost use Rattle.time_codes.specs.Countings.{day_frames_in};
ghost use Rattle.mcc_commands.specs.ExportMcc.{HaltsMcc, SaysMcc};
ghost use Rattle.text_output.specs.Gathered.{held_of};
ghost use Rattle.words_reading.specs.Judging.{StopCause};
ghost use Rattle.mcc_commands.specs.ExportSteps.{AddsLine, HasJudged, HasReadWords, stop_status};
ghost use Rattle.mcc_commands.specs.declared.start.Start.{Start as StartOf};

use crate::clock::Clock;
use crate::export_stop::MccStop;
use crate::lines::{caption_line, foreign_line};
use crate::start::Start;
use arrayvec::ArrayVec;
use cc_base::{Put, Refusal, Sink};
use std::alloc::{AllocError, Global};
use text_output::Gathered;
use words_reading::{Ended, Judge, Packets, Stop};

/// An export on its way: the words, packet by packet, and where the time codes stand. All memory that it takes is taken by `new`.
#[derive(Drop)]
pub struct Exporting {
    packets: Packets,
    clock: Clock,
}

impl Exporting {
    /// An export that judged nothing, of a file that starts so.
    pub(crate) fn new(alloc: Global, start: Start) -> Result<Exporting, AllocError>
        requires { start.first < day_frames_in start.count }
        ensures read { IfOk result (λ exporting. HasReadWords [] exporting) }
        ensures judged { IfOk result
            (λ exporting. HasJudged start [] (written_head start.count) exporting) }
    {
        Ok(Exporting {
            packets: Packets::new(alloc)?,
            clock: Clock::new(start),
        })
    }

    /// Adds the line of a packet that ended, and begins the next packet. Gives how many bytes were read, which is `used`.
    fn add<O: Sink>(
        &mut self,
        line: &[u8],
        used: usize,
        text: &mut Gathered,
        out: &mut O,
    ) -> Result<usize, Stop<MccStop>>
        requires { length line.now ≤ 531 }
        ensures adds { AddsLine (O.written out.old) (O.written out.new) (held_of text.old)
            (held_of text.new) line.now used self.old self.new result }
        ensures cause { StopCause (O.faults out.old) (O.faults out.new) result }
    {
        match text.add(line, out) {
            Put::Done => {
                self.packets.begin();
                Ok(used)
            }
            Put::Failed => Err(Stop::WriteFault),
        }
    }
}

impl Judge for Exporting {
    type Reason = MccStop;

    ghost Given = { StartOf };

    ghost HasRead = { λ bytes exporting. HasReadWords bytes exporting };

    ghost HasJudged = { λ start bytes text exporting. HasJudged start bytes text exporting };

    ghost Says = { λ start. SaysMcc start };

    ghost Halts = { λ start why. HaltsMcc start (stop_status why) };

    fn step<O: Sink>(
        &mut self,
        bytes: &[u8],
        text: &mut Gathered,
        out: &mut O,
    ) -> Result<usize, Stop<MccStop>> {
        let number = self.packets.frames();
        let fed = match self.packets.feed(bytes) {
            Ok(fed) => fed,
            Err(refusal) => return Err(Stop::Refused(refusal)),
        };
        let mut line = ArrayVec::new();
        match fed.ended {
            Ended::No => Ok(fed.used),
            Ended::Foreign => {
                match foreign_line(self.packets.bytes(), &self.clock, number, &mut line) {
                    Ok(()) => self.add(&line, fed.used, text, out),
                    Err(why) => Err(Stop::Own(why)),
                }
            }
            Ended::Caption => {
                let rate = self.packets.receiver.rate();
                let packet = self.packets.bytes();
                match caption_line(packet, rate, &mut self.clock, number, &mut line) {
                    Ok(()) => self.add(&line, fed.used, text, out),
                    Err(why) => Err(Stop::Own(why)),
                }
            }
        }
    }

    /// Says whether the words may end here.
    fn end(&self) -> Result<(), Refusal> {
        self.packets.receiver.finish()
    }

    ghost says = { λ start bytes text exporting had. (had.says, had.unoffending) };
}
