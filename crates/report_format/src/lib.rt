//! The text of a crash report.
//!
//! A [`Report`] says which program crashed and how, and gives an input that crashes it in the same
//! way, with a set of values for each byte of it. [`write_report`] writes the text line by line,
//! and [`read_report`] reads it.
#![tactic(auto)]

mod data;
mod error;
mod forms;
mod head;
pub mod laws;
mod lines;
mod lists;
mod reader;
mod report;
mod sets;
mod text;

pub use byte_sets::Sets;
pub use error::ReadError;
pub use lists::Bytes;
pub use reader::read_report;
pub use report::Report;
pub use text::{format_trap, format_word, write_report};
