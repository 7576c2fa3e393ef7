//! The tool: words, files and two sinks in; a status, a text on out and a line on err out.
//!
//! [`tool::run_tool`] is all that the program does, over any folder and any sinks.
#![tactic(auto)]

mod actions;
pub mod answer;
mod demo;
pub mod laws;
mod made;
mod outcome;
mod receiver;
mod run_text;
pub mod say;
mod stack;
pub mod tool;
