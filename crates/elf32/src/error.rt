//! Why a file is refused.

ghost use Rattle.std.specs.Prelude.{◌≡◌};
ghost use Rattle.elf32.specs.declared.error.ElfError.TheVariants.{NoMemory};

use std::alloc::{AllocError, AllocFailed};
use thiserror::Error;

/// The first rule that a file breaks, in the order in which the variants stand here, or want of memory.
/// The fields are those of the System V gABI's "ELF Header" and "Program Header".
#[derive(Clone, Copy, Debug, PartialEq, Eq, Error)]
pub enum ElfError {
    /// The file has fewer than the 52 bytes of an ELF header.
    #[error("the file is shorter than an ELF header")]
    Short,
    /// The bytes 0 to 3 aren't 7f 45 4c 46 ("ELF Identification").
    #[error("the file does not begin with the ELF magic number")]
    NotElf,
    /// EI_CLASS isn't ELFCLASS32, 1.
    #[error("the file is not of class ELFCLASS32")]
    Class,
    /// EI_DATA isn't ELFDATA2LSB, 1.
    #[error("the file's data encoding is not ELFDATA2LSB")]
    Data,
    /// e_type isn't ET_EXEC, 2.
    #[error("the file's type is not ET_EXEC")]
    Kind,
    /// e_machine isn't EM_RISCV, 243.
    #[error("the file's machine is not EM_RISCV")]
    Machine,
    /// e_flags has EF_RISCV_RVC, bit 0, or EF_RISCV_RVE, bit 3 (RISC-V psABI, "File Header").
    #[error("the file needs compressed instructions or the embedded register set")]
    Flags,
    /// e_phnum is above 64; or it isn't 0, and e_phentsize isn't 32 or the table ends past the file.
    #[error("the program header table is not within the file")]
    Table,
    /// A program header is of type PT_DYNAMIC, 2, or PT_INTERP, 3.
    #[error("the file is dynamically linked")]
    Dynamic,
    /// A header of type PT_LOAD has more bytes in the file than in memory, or ends past the file or past
    /// the last address.
    #[error("a segment is not within the file or within memory")]
    Segment,
    /// A segment shares a byte with another or with the stack, 7ff00000 to 7fffffff.
    #[error("a segment shares a byte with another, or with the stack")]
    Overlap,
    /// The p_memsz of the PT_LOAD headers sum to more than 64 MiB.
    #[error("the segments take more than 64 MiB")]
    TooBig,
    /// e_entry isn't a multiple of 4.
    #[error("the entry point is not a multiple of 4")]
    Entry,
    /// The file breaks no rule, and there was no memory for its segments.
    #[error("out of memory")]
    NoMemory,
}

impl From<AllocError> for ElfError {
    ghost from_gives = { λ _ e. e ≡ NoMemory };

    fn from(_e: AllocError) -> ElfError {
        ElfError::NoMemory
    }
}

impl<T: Drop> From<AllocFailed<T>> for ElfError {
    ghost from_gives = { λ _ e. e ≡ NoMemory };

    fn from(_e: AllocFailed<T>) -> ElfError {
        ElfError::NoMemory
    }
}
