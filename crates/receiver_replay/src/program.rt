//! The program of a report.

ghost use Rattle.std.specs.Prelude.{◌≡◌, ◌⊎◌, None, Some, IfOk, IfErr};
ghost use Rattle.elf32.specs.Loads.{IsImageOf};
ghost use Rattle.report_format.specs.Text.{content_of};
ghost use Rattle.receiver_replay.specs.Received.{is_its_program, program_refusal, NamesRule};

use crate::error::ReceiveError;
use elf32::{ElfError, Image, read_image};
use report_format::Report;
use sha2::{Digest, Sha256};
use std::alloc::Global;

/// Whether a file is the report's program, by its length and its digest.
pub fn is_its_program(program: &[u8], report: &Report) -> bool
    ensures { result ≡ is_its_program program.now (content_of report.now) }
{
    program.len() == report.length as usize && Sha256::digest(program) == report.digest
}

/// The image of the report's program, or why the file is refused.
pub fn load(alloc: Global, program: &[u8], report: &Report) -> Result<Image, ReceiveError>
    ensures image { IfOk result (λ image. IsImageOf program.now image) }
    ensures accepted { IfOk result (λ _. program_refusal program.now (content_of report.now) ≡ None) }
    ensures refused { IfErr result (λ e. (program_refusal program.now (content_of report.now) ≡ Some e) ⊎ (e ≡ ReceiveError.NoMemory)) }
    ensures rules { IfErr result NamesRule }
{
    if !is_its_program(program, report) {
        return Err(ReceiveError::WrongProgram);
    }
    match read_image(alloc, program) {
        Ok(image) => Ok(image),
        Err(ElfError::NoMemory) => Err(ReceiveError::NoMemory),
        Err(rule) => Err(ReceiveError::Program(rule)),
    }
}
