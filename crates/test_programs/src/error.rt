//! Why there is no file.

ghost use Rattle.std.specs.Prelude.{◌≡◌};
ghost use Rattle.test_programs.specs.declared.error.ProgramError.TheVariants.{NoMemory};

use std::alloc::{AllocError, AllocFailed};
use thiserror::Error;

/// Why words and regions have no file.
#[derive(Clone, Copy, Debug, PartialEq, Eq, Error)]
pub enum ProgramError {
    /// A word stands for no instruction.
    #[error("a word stands for no instruction")]
    Word,
    /// There are more than 63 regions, or the program's memory can't have them beside the code.
    #[error("the code and the regions can't be loaded")]
    Regions,
    /// The file would be longer than 16 MiB.
    #[error("the file would be longer than 16 MiB")]
    TooLong,
    /// Want of memory.
    #[error("out of memory")]
    NoMemory,
}

impl From<AllocError> for ProgramError {
    ghost from_gives = { λ _ e. e ≡ NoMemory };

    fn from(_e: AllocError) -> ProgramError {
        ProgramError::NoMemory
    }
}

impl<T: Drop> From<AllocFailed<T>> for ProgramError {
    ghost from_gives = { λ _ e. e ≡ NoMemory };

    fn from(_e: AllocFailed<T>) -> ProgramError {
        ProgramError::NoMemory
    }
}
