//! What is wrong with a transcript.

use std::alloc::{AllocError, AllocFailed};
use test_programs::ProgramError;
use thiserror::Error;

/// What is wrong with a line.
#[derive(Clone, Copy, Debug, Error)]
pub enum Problem {
    #[error("neither a file, a case, a command nor a loop")]
    Beginning,
    #[error("no such part of a file")]
    Part,
    #[error("no such part of a command")]
    Detail,
    #[error("a quote without its end")]
    Quote,
    #[error("a number is wanted")]
    Number,
    #[error("bytes in hexadecimal are wanted")]
    Hex,
    #[error("the words are no program")]
    Program,
    #[error("no file of this name stands before")]
    NoFile,
    #[error("the file has no such place or line")]
    Place,
    #[error("a loop within a loop, or an end without one")]
    Loop,
    #[error("no answer for this number")]
    NoAnswer,
    #[error("out of memory")]
    NoMemory,
}

impl From<AllocError> for Problem {
    fn from(_e: AllocError) -> Problem {
        Problem::NoMemory
    }
}

impl<T: Drop> From<AllocFailed<T>> for Problem {
    fn from(_e: AllocFailed<T>) -> Problem {
        Problem::NoMemory
    }
}

impl From<ProgramError> for Problem {
    fn from(e: ProgramError) -> Problem {
        match e {
            ProgramError::NoMemory => Problem::NoMemory,
            _ => Problem::Program,
        }
    }
}

/// The line that is wrong, counted from 1, and why.
#[derive(Clone, Copy, Debug, Error)]
#[error("line {line}: {problem}")]
pub struct Malformed {
    pub line: u32,
    pub problem: Problem,
}

/// What a line came to, or that it is wrong so.
pub fn on_line<T: Drop>(line: u32, outcome: Result<T, Problem>) -> Result<T, Malformed> {
    match outcome {
        Ok(value) => Ok(value),
        Err(problem) => Err(Malformed { line, problem }),
    }
}
