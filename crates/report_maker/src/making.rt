//! What is made of a program and an input.

ghost use Rattle.std.specs.Prelude.{◌≡◌, ◌⊎◌, ◌≤◌, ◌<◌, Ok, Err, length, IfOk, IfErr};
ghost use Rattle.elf32.specs.Loads.{loaded_program};
ghost use Rattle.rv_machine.specs.Trace.{transcript_of};
ghost use Rattle.report_format.specs.Text.{IsReport, content_of};
ghost use Rattle.report_maker.specs.Errors.{NamesRule};
ghost use Rattle.report_maker.specs.Made.{made, made_value};

use crate::error::ReportError;
use crate::maker::{Made, make_report};
use elf32::read_image;
use rv_event::End;
use rv_machine::trace_of;
use std::alloc::Global;

/// The report of a program's crash on an input, and what its search took, or why there is none: the
/// program is read and run on the input, and the report is made of the trace. `steps` bounds the run,
/// and `conflicts` the search for the first bytes of a group of more than two bytes.
///
/// Errors come in the order of [`ReportError`], each exactly where its cause is the first.
pub fn made(
    alloc: Global,
    program: &[u8],
    input: &[u8],
    seed: u64,
    steps: u32,
    conflicts: u32,
) -> Result<Made, ReportError>
    requires short { length program.now ≤ 16777216 }
    requires few { length input.now ≤ 65536 }
    requires steps { steps ≤ 10000000 }
    requires conflicts { 0 < conflicts }
    ensures made { IfOk result (λ what.
        made program.now seed steps conflicts (transcript_of (loaded_program program.now) input.now steps) ≡ Ok (made_value what)) }
    ensures range { IfOk result (λ what. IsReport (content_of what.report)) }
    ensures refused { IfErr result (λ error.
        (made program.now seed steps conflicts (transcript_of (loaded_program program.now) input.now steps) ≡ Err error)
        ⊎ (error ≡ ReportError.NoMemory)) }
    ensures rules { IfErr result NamesRule }
{
    let image = read_image(alloc, program)?;
    let transcript = trace_of(alloc, &image, input, steps)?;
    match transcript.end {
        End::Limit => Err(ReportError::StillRunning),
        End::Exit(_) => Err(ReportError::NoCrash),
        End::Trap(_) => Ok(make_report(alloc, &image, program, &transcript, seed, conflicts)?),
    }
}
