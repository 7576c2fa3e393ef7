//! Why no report is made.

ghost use Rattle.std.specs.Prelude.{◌≡◌};
ghost use Rattle.report_maker.specs.declared.error.MakeError.TheVariants.{NoMemory};
ghost use Rattle.report_maker.specs.declared.error.ReportError.TheVariants as report;
ghost use Rattle.report_maker.specs.Errors.{error_of, of_make, IsOfRule};

use elf32::ElfError;
use std::alloc::AllocError;
use thiserror::Error;
use wide_solve::WideError;

/// Why no report of a trace is made.
#[derive(Clone, Copy, Debug, PartialEq, Eq, Error)]
pub enum MakeError {
    /// The search for the first bytes of a group of more than two places counted as many conflicts
    /// as the budget has. It is the first such group.
    #[error("conflicts spent: first {first} width {width}")]
    Spent {
        /// The group's first place.
        first: u32,
        /// How many places the group has.
        width: u32,
    },
    /// There was no memory.
    #[error("out of memory")]
    NoMemory,
}

impl From<AllocError> for MakeError {
    ghost from_gives = { λ _ e. e ≡ NoMemory };

    fn from(_error: AllocError) -> MakeError {
        MakeError::NoMemory
    }
}

impl From<WideError> for MakeError {
    ghost from_gives = { λ w e. e ≡ error_of w };

    fn from(error: WideError) -> MakeError {
        match error {
            WideError::Spent { first, width } => MakeError::Spent { first, width },
            WideError::NoMemory => MakeError::NoMemory,
        }
    }
}

/// Why no report of a program and an input is made, in the order in which the causes are looked for.
#[derive(Clone, Copy, Debug, PartialEq, Eq, Error)]
pub enum ReportError {
    /// The file breaks a rule of programs, of which this is the first.
    #[error("not a program: {0}")]
    Program(ElfError),
    /// The run did not end within the limit of steps.
    #[error("still running")]
    StillRunning,
    /// The run ended by an exit.
    #[error("no crash")]
    NoCrash,
    /// The search for the first bytes of a group of more than two places counted as many conflicts
    /// as the budget has. It is the first such group.
    #[error("conflicts spent: first {first} width {width}")]
    Spent {
        /// The group's first place.
        first: u32,
        /// How many places the group has.
        width: u32,
    },
    /// There was no memory.
    #[error("out of memory")]
    NoMemory,
}

impl From<AllocError> for ReportError {
    ghost from_gives = { λ _ e. e ≡ report.NoMemory };

    fn from(_error: AllocError) -> ReportError {
        ReportError::NoMemory
    }
}

impl From<ElfError> for ReportError {
    ghost from_gives = { λ rule e. IsOfRule rule e };

    fn from(rule: ElfError) -> ReportError {
        match rule {
            ElfError::NoMemory => ReportError::NoMemory,
            _ => ReportError::Program(rule),
        }
    }
}

impl From<MakeError> for ReportError {
    ghost from_gives = { λ m e. e ≡ of_make m };

    fn from(error: MakeError) -> ReportError {
        match error {
            MakeError::Spent { first, width } => ReportError::Spent { first, width },
            MakeError::NoMemory => ReportError::NoMemory,
        }
    }
}
