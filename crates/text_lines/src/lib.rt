//! Texts of lines, and the fields of a line, each in one spelling.
//!
//! A text is read line by line, each with its line end, a line feed. What readers of such texts
//! share stands in the definitions: the lines that a text is, and the first line at which another
//! text fails.
#![tactic(auto)]

mod fields;
pub mod laws;
mod numbers;

pub use fields::{after, is_name, split_at_byte, split_line};
pub use numbers::{read_digits, read_number, read_number_between, read_word};
