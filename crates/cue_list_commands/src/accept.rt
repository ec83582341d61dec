ghost use Rattle.std.specs.Prelude.{◌≡◌, ◌≤◌, IfOk, length};
ghost use Rattle.cc_base.specs.Streams.{whole_limit};
ghost use Rattle.cue_list_commands.specs.Accepted.{IsGoodList, IsRefused, IsRefusedList};
ghost use Rattle.command_base.specs.WholeInput.{JudgesInput};
ghost use Rattle.cue_lists.specs.Rules.{IsRuled};
ghost use Rattle.cue_list_commands.specs.Reads.{IsProgrammeOf, ReadsList, ReadsProgramme, form_status};

use cc_base::Source;
use command_base::{Place, Status, read_input};
use cue_lists::{CueFault, CueList, check, parse};
use frame_carrier::{Plan, PlanFault, Programme, plan};
use std::alloc::Global;

/// Reads a cue list to its end and judges it: its bytes' number, its form and limits, its rules, its room. Gives its programme, or the status with which it is refused.
pub fn read_programme<M: Source>(alloc: Global, input: &mut M) -> Result<Programme<Plan>, Status>
    ensures { ReadsProgramme (M.left input.old) (M.left input.new) (M.faults input.old)
        (M.faults input.new) result }
{
    let bytes = read_input(alloc, input)?;
    judge(alloc, &bytes)
}

/// Reads a cue list to its end and judges all but its placement. Gives the list, or the status with which it is refused.
pub fn read_list<M: Source>(alloc: Global, input: &mut M) -> Result<CueList, Status>
    ensures reads { ReadsList (M.left input.old) (M.left input.new) (M.faults input.old)
        (M.faults input.new) result }
    ensures ruled { IfOk result (λ list. IsRuled list) }
{
    let bytes = read_input(alloc, input)?;
    judge_list(alloc, &bytes)
}

/// Judges the bytes of a cue list.
fn judge(alloc: Global, bytes: &[u8]) -> Result<Programme<Plan>, Status>
    requires { length bytes.now ≤ whole_limit }
    ensures { JudgesInput IsProgrammeOf IsRefused bytes.now result }
{
    let list = judge_list(alloc, bytes)?;
    match plan(alloc, &list) {
        Ok(plan) => Ok(Programme {
            rate: list.rate(),
            frames: plan,
        }),
        Err(PlanFault::Memory(_)) => Err(Status::Memory),
        Err(PlanFault::NoRoom(cue)) => Err(Status::NoRoom(cue)),
    }
}

/// Judges all but the placement of a cue list.
fn judge_list(alloc: Global, bytes: &[u8]) -> Result<CueList, Status>
    requires { length bytes.now ≤ whole_limit }
    ensures { JudgesInput IsGoodList IsRefusedList bytes.now result }
{
    let list = match parse(alloc, bytes) {
        Ok(list) => list,
        Err(fault) => return Err(status_of_form(fault)),
    };
    match check(&list) {
        Ok(()) => Ok(list),
        Err(fault) => Err(Status::Rule(fault)),
    }
}

/// The status of a list whose form is at fault.
fn status_of_form(fault: CueFault) -> Status
    ensures { result ≡ form_status fault }
{
    match fault {
        CueFault::Memory(_) => Status::Memory,
        CueFault::Limit(which) => Status::Limit(which),
        CueFault::Malformed { rec, field, why } => Status::Malformed(
            Place::Field { rec, field },
            why,
        ),
    }
}
