//! What is made of a program and an input under the options.

ghost use Rattle.std.specs.Prelude.{◌≡◌, ◌⊎◌, ◌≤◌, Ok, Err, length, IfOk, IfErr};
ghost use Rattle.report_maker.specs.Made.{made_value};
ghost use Rattle.crash_tool.specs.Made.{made, transcript_under};
ghost use Rattle.tool_words.specs.Words.{AreWithin};
ghost use Rattle.crash_tool.specs.Call.{IsOfFiles};

use crate::answer::Refusal;
use report_maker::Made;
use std::alloc::Global;
use tool_words::Options;

/// The report of a program's crash on an input, and what its search took, or why there is none.
pub fn made(alloc: Global, program: &[u8], options: Options, input: &[u8]) -> Result<Made, Refusal>
    requires short { length program.now ≤ 16777216 }
    requires few { length input.now ≤ 65536 }
    requires options { AreWithin options }
    ensures made { IfOk result (λ what.
        made program.now options (transcript_under program.now options input.now) ≡ Ok (made_value what)) }
    ensures refused { IfErr result (λ refusal.
        (made program.now options (transcript_under program.now options input.now) ≡ Err refusal) ⊎ (refusal ≡ Refusal.NoMemory)) }
    ensures kind { IfErr result IsOfFiles }
{
    Ok(report_maker::made(
        alloc,
        program,
        input,
        options.seed,
        options.steps,
        options.conflicts,
    )?)
}
