//! From words to a file and to its image.

ghost use Rattle.std.specs.Prelude.{◌≡◌, ◌<◌, ◌≤◌, ℕ, List, Err, Some, None, true, map, length, IfOk, IfSome, IfNone};
ghost use Rattle.std.specs.List.{All};
ghost use Rattle.rv_decode.specs.Rows.{IsWellFormed};
ghost use Rattle.rv_decode.specs.Table.{decoded};
ghost use Rattle.elf32.specs.Rules.{refusal};
ghost use Rattle.elf32.specs.Loads.{IsImageOf};
ghost use Rattle.rv_assemble.specs.Parts.{file_length};
ghost use Rattle.test_programs.specs.Program.{IsProgram, has_other, cannot_load};

use crate::error::ProgramError;
use crate::memory::cannot_load;
use elf32::{Image, read_image};
use no_memory::NoMemory;
use rv_assemble::{BuildError, Bytes, Region, build};
use rv_decode::{Instr, decode};
use std::alloc::Global;

/// The instructions that words stand for, if each stands for one.
fn instructions(alloc: Global, words: &[u32]) -> Result<Option<Vec<Instr>>, NoMemory>
    ensures stand { IfOk result (λ some. IfSome some (λ code. map decoded words.now ≡ map Some code.items)) }
    ensures formed { IfOk result (λ some. IfSome some (λ code. All IsWellFormed code.items)) }
    ensures other { IfOk result (λ some. IfNone some (has_other words.now ≡ true)) }
{
    let mut code = Vec::new(alloc);
    for word in words {
        match decode(*word) {
            Some(instruction) => code.push(instruction)?,
            None => return Ok(None),
        }
    }
    Ok(Some(code))
}

/// The file of a program that starts at its first word, which lies at 00010000, with the rights 5, and of
/// the regions.
pub fn program_file(alloc: Global, words: &[u32], regions: &[Region]) -> Result<Bytes, ProgramError>
    ensures file { IfOk result (λ file. IsProgram words.now regions.now file) }
    ensures accepted { IfOk result (λ file. refusal file ≡ None) }
    ensures short { IfOk result (λ file. length file ≤ 16777216) }
    ensures word { result ≡ Err ProgramError.Word → has_other words.now ≡ true }
    ensures regions { result ≡ Err ProgramError.Regions → cannot_load (length words.now) regions.now ≡ true }
    ensures long { result ≡ Err ProgramError.TooLong → 16777216 < file_length (length words.now) regions.now }
{
    if cannot_load(words.len(), regions) {
        return Err(ProgramError::Regions);
    }
    let Some(code) = instructions(alloc, words)? else {
        return Err(ProgramError::Word);
    };
    match build(alloc, &code, regions) {
        Ok(file) => Ok(file),
        Err(BuildError::TooLong) => Err(ProgramError::TooLong),
        Err(BuildError::NoMemory) => Err(ProgramError::NoMemory),
    }
}

/// The image of that file.
pub fn program_image(
    alloc: Global,
    words: &[u32],
    regions: &[Region],
) -> Result<Image, ProgramError>
    ensures image { IfOk result (λ image. (file : List ℕ) × IsProgram words.now regions.now file
        × IsImageOf file image) }
    ensures word { result ≡ Err ProgramError.Word → has_other words.now ≡ true }
    ensures regions { result ≡ Err ProgramError.Regions → cannot_load (length words.now) regions.now ≡ true }
    ensures long { result ≡ Err ProgramError.TooLong → 16777216 < file_length (length words.now) regions.now }
{
    let file = program_file(alloc, words, regions)?;
    match read_image(alloc, file.as_slice()) {
        Ok(image) => Ok(image),
        Err(_) => Err(ProgramError::NoMemory),
    }
}
