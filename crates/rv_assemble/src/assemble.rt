//! Writing a file.

ghost use Rattle.std.specs.Prelude.{◌≡◌, ◌+◌, ◌<◌, ◌≤◌, ◌↔◌, ◌∷◌, length, IfOk, IsErrOf, None};
ghost use Rattle.std.specs.List.{All};
ghost use Rattle.rv_decode.specs.Rows.{IsWellFormed};
ghost use Rattle.elf32.specs.Rules.{refusal};
ghost use Rattle.elf32.specs.Loads.{loaded_program};
ghost use Rattle.rv_assemble.specs.Layout.{file_of};
ghost use Rattle.rv_assemble.specs.Parts.{places, CanLoad, IsRegion, held, file_length, IsFile};

use crate::bytes::Bytes;
use crate::error::BuildError;
use crate::region::Region;
use crate::write::{
    FILE_HEADER_SIZE, PROGRAM_HEADER_SIZE, code_region, file_length, push_contents,
    push_file_header, push_program_header, push_program_headers,
};
use no_memory::NoMemory;
use rv_decode::Instr;
use std::alloc::Global;

/// The bytes that a file may have, 16 MiB.
const MOST_BYTES: u64 = 0x0100_0000;

/// The file of the code's region and the others.
fn file_of(alloc: Global, text: &Region, regions: &[Region]) -> Result<Vec<u8>, NoMemory>
    requires few { length regions.now ≤ 63 }
    requires small { length text.now.bytes + held regions.now ≤ 67108864 }
    ensures { IfOk result (λ file. file.items ≡ file_of (text.now ∷ regions.now)) }
{
    let count = regions.len() + 1;
    let start = FILE_HEADER_SIZE + PROGRAM_HEADER_SIZE * count as u32;
    let next = start + text.bytes.as_slice().len() as u32;
    let mut file = Vec::new(alloc);
    push_file_header(&mut file, count as u16)?;
    push_program_header(&mut file, start, text)?;
    push_program_headers(&mut file, next, regions)?;
    file.extend_from_slice(text.bytes.as_slice())?;
    push_contents(&mut file, regions)?;
    Ok(file)
}

/// Writes a program that starts at its first instruction, which lies at 00010000. The code can be read
/// and executed.
///
/// The file is an ELF header, a program header for the code and one for each region, the code, and the
/// regions' bytes in order, with nothing between (System V gABI, "ELF Header" and "Program Header").
/// The code has its program header also where there is none, so there are at most 63 regions.
///
/// `TooLong` says that the file would be longer than 16,777,216 bytes.
pub fn build(alloc: Global, code: &[Instr], regions: &[Region]) -> Result<Bytes, BuildError>
    requires instructions { All IsWellFormed code.now }
    requires few { length regions.now ≤ 63 }
    requires regions { All IsRegion regions.now }
    requires memory { CanLoad (places (length code.now) regions.now) }
    ensures file { IfOk result (λ b. IsFile code.now regions.now b) }
    ensures accepted { IfOk result (λ b. refusal b ≡ None) }
    ensures entry { IfOk result (λ b. (loaded_program b).entry ≡ 0x10000) }
    ensures length { IfOk result (λ b. length b ≡ file_length (length code.now) regions.now) }
    ensures long { IsErrOf result BuildError.TooLong ↔ (16777216 < file_length (length code.now) regions.now) }
{
    if file_length(code, regions) > MOST_BYTES {
        return Err(BuildError::TooLong);
    }
    let text = code_region(alloc, code)?;
    Ok(Bytes::from_vec(file_of(alloc, &text, regions)?))
}
