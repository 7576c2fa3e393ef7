//! The report made anew.

ghost use Rattle.std.specs.Prelude.{◌<◌, ◌≤◌, IfOk, IfErr};
ghost use Rattle.report_format.specs.Text.{content_of};
ghost use Rattle.report_format.specs.Reading.{IsTextOf};
ghost use Rattle.receiver_replay.specs.Received.{checked, IsBut, NamesRule};
ghost use Rattle.receiver_replay.specs.Right.{IsRight};

use crate::difference::first_difference;
use crate::error::ReceiveError;
use crate::laws::a_report_of_a_run_is_right;
use crate::program::is_its_program;
use report_format::Report;
use report_format::laws::reports_are_in_range;
use report_maker::made;
use std::alloc::Global;

/// Makes the report anew, from the program, the report's input and its seed, and accepts it where it
/// is the same text. `text` is the report's own. `steps` bounds the run, 1 to 10,000,000 steps, and
/// `conflicts` the search for a group's first bytes, 1 to 1,000,000 conflicts. Refusals come in the
/// order of [`ReceiveError`], each exactly where its cause is the first; `Differs` has the first line of
/// the report's text that is not the line of the new text.
pub fn check_report(
    alloc: Global,
    program: &[u8],
    report: &Report,
    text: &[u8],
    steps: u32,
    conflicts: u32,
) -> Result<(), ReceiveError>
    requires text { IsTextOf (content_of report.now) text.now }
    requires steps { steps ≤ 10000000 }
    requires conflicts { 0 < conflicts }
    ensures checked { IsBut (checked program.now (content_of report.now) steps conflicts) result }
    ensures rules { IfErr result NamesRule }
    ensures right { IfOk result (λ _. IsRight program.now (content_of report.now) steps) }
{
    a_report_of_a_run_is_right();
    reports_are_in_range(report);
    if !is_its_program(program, report) {
        return Err(ReceiveError::WrongProgram);
    }
    let anew = made(
        alloc,
        program,
        report.input.as_slice(),
        report.seed,
        steps,
        conflicts,
    )?;
    match first_difference(alloc, text, &anew.report)? {
        Some(line) => Err(ReceiveError::Differs { line }),
        None => Ok(()),
    }
}
