//! The outcome of a program and an input.

ghost use Rattle.std.specs.Prelude.{◌≡◌, ◌≤◌, length, IfErr};
ghost use Rattle.crash_tool.specs.Made.{transcript_under};
ghost use Rattle.crash_tool.specs.Outcome.{outcome};
ghost use Rattle.tool_words.specs.Words.{AreWithin};
ghost use Rattle.crash_tool.specs.Call.{IsBut, IsOfFiles};

use crate::answer::Answer;
use crate::made::made;
use report_format::write_report;
use std::alloc::Global;
use tool_words::Options;

/// The text of the report that is made of a program and an input.
pub fn outcome(alloc: Global, program: &[u8], options: Options, input: &[u8]) -> Answer
    requires short { length program.now ≤ 16777216 }
    requires few { length input.now ≤ 65536 }
    requires options { AreWithin options }
    ensures answer { IsBut (λ answer.
        answer ≡ outcome program.now options (length input.now) (transcript_under program.now options input.now)) result }
    ensures kind { IfErr result IsOfFiles }
{
    let made = made(alloc, program, options, input)?;
    Ok(write_report(alloc, &made.report)?)
}
