//! What a receiver does with a crash report and the program's file.
//!
//! [`replay_report`] runs the program on the report's input and tells whether it crashes as the
//! report says. [`check_report`] makes the report anew and tells at which line it differs, so that
//! an accepted report can be relied on, whoever wrote it.
#![tactic(auto)]

mod check;
mod difference;
mod error;
pub mod laws;
mod program;
mod replay;

pub use check::check_report;
pub use error::ReceiveError;
pub use replay::replay_report;
