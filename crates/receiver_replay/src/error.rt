//! Why a report is not accepted.

ghost use Rattle.std.specs.Prelude.{◌≡◌};
ghost use Rattle.receiver_replay.specs.declared.error.ReceiveError.TheVariants.{NoMemory};
ghost use Rattle.receiver_replay.specs.Errors.{error_of};

use elf32::ElfError;
use report_maker::ReportError;
use std::alloc::AllocError;
use thiserror::Error;

/// Why a report is not accepted, in the order in which the causes are looked for.
#[derive(Clone, Copy, Debug, PartialEq, Eq, Error)]
pub enum ReceiveError {
    /// The file's length or its SHA-256 is not that of the report's program.
    #[error("wrong program")]
    WrongProgram,
    /// The file breaks a rule of programs, of which this is the first.
    #[error("not a program: {0}")]
    Program(ElfError),
    /// The run on the report's input did not end within the limit of steps.
    #[error("still running")]
    StillRunning,
    /// The run on the report's input ended by an exit.
    #[error("no crash")]
    NoCrash,
    /// The search for the first bytes of a group of more than two places counted as many conflicts
    /// as the budget has. It is the first such group.
    #[error("conflicts spent: first {first} width {width}")]
    Spent {
        /// The group's first place.
        first: u32,
        /// How many places the group has.
        width: u32,
    },
    /// The first line of the report's text, counted from 1, that is not what the program gives.
    #[error("differs: line {line}")]
    Differs {
        /// The line's number.
        line: u32,
    },
    /// There was no memory.
    #[error("out of memory")]
    NoMemory,
}

impl From<AllocError> for ReceiveError {
    ghost from_gives = { λ _ e. e ≡ NoMemory };

    fn from(_error: AllocError) -> ReceiveError {
        ReceiveError::NoMemory
    }
}

impl From<ReportError> for ReceiveError {
    ghost from_gives = { λ r e. e ≡ error_of r };

    fn from(error: ReportError) -> ReceiveError {
        match error {
            ReportError::Program(rule) => ReceiveError::Program(rule),
            ReportError::StillRunning => ReceiveError::StillRunning,
            ReportError::NoCrash => ReceiveError::NoCrash,
            ReportError::Spent { first, width } => ReceiveError::Spent { first, width },
            ReportError::NoMemory => ReceiveError::NoMemory,
        }
    }
}
