ghost use Rattle.std.specs.Prelude.{List, length};
ghost use Rattle.cdp_packets.specs.Packets.{Frame};
ghost use Rattle.time_codes.specs.declared.time_code.TimeCode.{TimeCode as Time};
ghost use Rattle.scc_commands.specs.Export.{AreExported, StopsAtFrame, export_front};
ghost use Rattle.scc_commands.specs.Exporting.{StandsBehind, reason_status};

use crate::finding::find;
use cc_base::{LimitOf, Put, Sink};
use command_base::Status;
use findings::Finding;
use scc_files::SccWriter;
use text_output::Gathered;
use words_reading::{PerFrame, Reason, Receiver, Stop};

/// Why an export stops at a frame.
#[derive(Clone, Copy, PartialEq, Eq)]
pub enum ExportStop {
    /// This was found at it.
    Found(Finding),
    /// A pair that isn't null stands past the end of the day.
    Day,
}

impl Reason for ExportStop {
    ghost status_of = { reason_status };

    fn status(self) -> Status {
        match self {
            ExportStop::Found(finding) => Status::Differs(finding),
            ExportStop::Day => Status::Limit(LimitOf::Day),
        }
    }
}

/// An export on its way: where the SCC file of the frames' pairs of field 1 stands.
#[derive(Drop)]
pub struct Exporting {
    /// After the frames so far.
    pub writer: SccWriter,
}

impl PerFrame for Exporting {
    type Reason = ExportStop;

    ghost Given = { Time };

    ghost text_of = { λ time. export_front time };

    ghost AreFit = { λ time. AreExported time };

    ghost Stands = { λ time frames export. StandsBehind time frames export };

    ghost IsReason = { λ time frames last reason. StopsAtFrame time (length frames) last (reason_status reason) };

    /// Writes the pair of the frame: tries its findings first, and then the day.
    fn frame<O: Sink>(
        &mut self,
        receiver: &Receiver,
        number: u32,
        text: &mut Gathered,
        out: &mut O,
    ) -> Result<(), Stop<ExportStop>> {
        if let Some(kind) = find(receiver) {
            let frame = number;
            return Err(Stop::Own(ExportStop::Found(Finding { frame, kind })));
        }
        let Some(pair) = receiver.pairs_one().first() else {
            return Ok(());
        };
        let Some(piece) = self.writer.piece(number, *pair) else {
            return Err(Stop::Own(ExportStop::Day));
        };
        match text.add(&piece, out) {
            Put::Done => Ok(()),
            Put::Failed => Err(Stop::WriteFault),
        }
    }

    ghost fit = { λ time frames export stands. stands.are_exported };
}
