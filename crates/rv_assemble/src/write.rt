//! Writing the parts of a file.

ghost use Rattle.std.specs.Prelude.{◌≡◌, ◌+◌, ◌*◌, ◌<◌, ◌≤◌, ◌^◌, ◌++◌, length, OnOk, IfOk, flat_map};
ghost use Rattle.std.specs.List.{All};
ghost use Rattle.rv_decode.specs.Rows.{IsWellFormed};
ghost use Rattle.rv_assemble.specs.Layout.{half, word, file_header, program_header, program_headers, contents};
ghost use Rattle.rv_assemble.specs.Parts.{Spells, code_region, held, file_length};

use crate::bytes::Bytes;
use crate::region::Region;
use no_memory::NoMemory;
use rv_decode::{Instr, encode};
use std::alloc::Global;

/// The magic number, the class, the data encoding and the version.
const IDENTIFICATION: [u8; 16] = [0x7f, b'E', b'L', b'F', 1, 1, 1, 0, 0, 0, 0, 0, 0, 0, 0, 0];

/// The bytes of an ELF header.
pub const FILE_HEADER_SIZE: u32 = 52;

/// The bytes of a program header.
pub const PROGRAM_HEADER_SIZE: u32 = 32;

/// The address of the first instruction.
const CODE_BASE: u32 = 0x0001_0000;

/// Writes a field of two bytes.
fn push_half(file: &mut Vec<u8>, n: u16) -> Result<(), NoMemory>
    ensures { OnOk result (file.new.items ≡ file.old.items ++ half n) }
{
    file.extend_from_slice(&n.to_le_bytes())
}

/// Writes a field of four bytes.
fn push_word(file: &mut Vec<u8>, n: u32) -> Result<(), NoMemory>
    ensures { OnOk result (file.new.items ≡ file.old.items ++ word n) }
{
    file.extend_from_slice(&n.to_le_bytes())
}

/// Writes the header of a file with `count` program headers.
#[tactic(auto, using(crate::proofs::Appends::regroup), unfolding(crate::specs::Layout::file_header))]
pub fn push_file_header(file: &mut Vec<u8>, count: u16) -> Result<(), NoMemory>
    ensures { OnOk result (file.new.items ≡ file.old.items ++ file_header count) }
{
    file.extend_from_slice(&IDENTIFICATION)?;
    // e_type ET_EXEC, e_machine EM_RISCV, e_version
    push_half(file, 2)?;
    push_half(file, 243)?;
    push_word(file, 1)?;
    // e_entry, e_phoff, e_shoff, e_flags
    push_word(file, CODE_BASE)?;
    push_word(file, FILE_HEADER_SIZE)?;
    push_word(file, 0)?;
    push_word(file, 0)?;
    // e_ehsize, e_phentsize, e_phnum
    push_half(file, 52)?;
    push_half(file, 32)?;
    push_half(file, count)?;
    // e_shentsize, e_shnum, e_shstrndx
    push_half(file, 0)?;
    push_half(file, 0)?;
    push_half(file, 0)
}

/// Writes fields of four bytes.
fn push_words(file: &mut Vec<u8>, words: &[u32]) -> Result<(), NoMemory>
    ensures { OnOk result (file.new.items ≡ file.old.items ++ flat_map word words.now) }
{
    for n in words {
        push_word(file, *n)?;
    }
    Ok(())
}

/// Writes the program header of a region whose bytes are at an offset in the file.
pub fn push_program_header(file: &mut Vec<u8>, offset: u32, region: &Region) -> Result<(), NoMemory>
    requires { length region.now.bytes < 2 ^ 32 }
    ensures { OnOk result (file.new.items ≡ file.old.items ++ program_header offset region.now) }
{
    let length = region.bytes.as_slice().len() as u32;
    // p_type PT_LOAD, p_offset, p_vaddr, p_paddr, p_filesz, p_memsz, p_flags, p_align
    let fields = [
        1,
        offset,
        region.base,
        region.base,
        length,
        region.size,
        region.rights,
        1,
    ];
    push_words(file, &fields)
}

/// Writes the program headers of regions whose bytes follow one another from an offset on.
pub fn push_program_headers(
    file: &mut Vec<u8>,
    mut offset: u32,
    regions: &[Region],
) -> Result<(), NoMemory>
    requires { offset + held regions.now < 2 ^ 32 }
    ensures { OnOk result (file.new.items ≡ file.old.items ++ program_headers offset regions.now) }
{
    for region in regions {
        push_program_header(file, offset, region)?;
        offset += region.bytes.as_slice().len() as u32;
    }
    Ok(())
}

/// Writes the bytes of the regions.
pub fn push_contents(file: &mut Vec<u8>, regions: &[Region]) -> Result<(), NoMemory>
    ensures { OnOk result (file.new.items ≡ file.old.items ++ contents regions.now) }
{
    for region in regions {
        file.extend_from_slice(region.bytes.as_slice())?;
    }
    Ok(())
}

/// The bytes of the instructions' words.
fn text_of(alloc: Global, code: &[Instr]) -> Result<Vec<u8>, NoMemory>
    requires { All IsWellFormed code.now }
    ensures spells { IfOk result (λ text. Spells text.items code.now) }
    ensures size { IfOk result (λ text. length text.items ≡ 4 * length code.now) }
{
    let mut text = Vec::new(alloc);
    for instruction in code {
        text.extend_from_slice(&encode(instruction).to_le_bytes())?;
    }
    Ok(text)
}

/// The region of the code, which can be read and executed.
pub fn code_region(alloc: Global, code: &[Instr]) -> Result<Region, NoMemory>
    requires formed { All IsWellFormed code.now }
    requires small { 4 * length code.now < 2 ^ 32 }
    ensures spells { IfOk result (λ r. Spells r.bytes code.now) }
    ensures size { IfOk result (λ r. length r.bytes ≡ 4 * length code.now) }
    ensures region { IfOk result (λ r. r ≡ code_region r.bytes) }
{
    let text = text_of(alloc, code)?;
    Ok(Region {
        base: CODE_BASE,
        size: 4 * code.len() as u32,
        rights: 5,
        bytes: Bytes::from_vec(text),
    })
}

/// The bytes of a file of the code and the regions.
#[tactic(auto, using(crate::proofs::Appends::sum_drop))]
pub fn file_length(code: &[Instr], regions: &[Region]) -> u64
    requires code { length code.now < 2 ^ 32 }
    requires few { length regions.now ≤ 63 }
    requires small { held regions.now < 2 ^ 32 }
    ensures { result ≡ file_length (length code.now) regions.now }
{
    let headers = u64::from(PROGRAM_HEADER_SIZE) * (regions.len() as u64 + 1);
    let mut total = u64::from(FILE_HEADER_SIZE) + headers + 4 * code.len() as u64;
    for region in regions {
        total += region.bytes.as_slice().len() as u64;
    }
    total
}
