//! Program files of a few words, for the tests of other crates.
#![tactic(auto)]

mod error;
mod memory;
mod program;
mod region;
pub mod words;

pub use error::ProgramError;
pub use program::{program_file, program_image};
pub use region::zeros;
