//! The words after the program's name, and what they ask for.
//!
//! [`read_words`] accepts `ACTION PROGRAM SECOND` and `demo KIND N`, with options in their ranges.
#![tactic(auto)]

mod command;
mod words;

pub use command::WordsError;
pub use words::{Action, Asked, Options, Task, read_words};
