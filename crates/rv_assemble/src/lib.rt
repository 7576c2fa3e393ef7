//! Writes instructions and further parts of memory as a statically linked RISC-V program in an ELF
//! file.
#![tactic(auto)]

mod assemble;
mod bytes;
mod demo;
mod demo_code;
mod error;
mod laws;
mod mnemonics;
mod region;
mod write;

pub use assemble::build;
pub use bytes::Bytes;
pub use demo::{DemoCase, DemoKind, demo_case};
pub use error::BuildError;
pub use laws::code_has_one_file;
pub use region::Region;
