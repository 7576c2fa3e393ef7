//! Statically linked RISC-V programs in ELF files: the file format of the System V gABI, with the machine
//! number and the flags of the RISC-V psABI.
//!
//! [`read_image`] answers what a file loads into memory, or the first rule that the file breaks
//! ([`ElfError`]). It reads the ELF header and the program headers alone: section headers, notes,
//! attributes (type 70000003), stack marks and other types of program header are let be.
//! [`read_symbols`] answers the functions that the section headers lead to.
#![tactic(auto)]

mod bytes;
mod error;
mod header;
mod image;
mod laws;
mod load;
mod rules;
mod sections;
mod segments;
mod span;
mod symbols;

pub use bytes::Bytes;
pub use error::ElfError;
pub use image::Image;
pub use laws::{
    accepted_files_fit, overlap_is_a_common_address, segments_are_in_order,
    share_is_a_common_address,
};
pub use load::read_image;
pub use segments::{Segment, Segments};
pub use symbols::{Symbol, Symbols, read_symbols};
