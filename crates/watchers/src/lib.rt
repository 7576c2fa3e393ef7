//! States that follow the events of a run.
//!
//! A state's type names the next state ([`Watched`]), and a step is a function whose every state is
//! the one that is named ([`Step`]). A [`Watch`] keeps a state beside its step, so the state of a
//! watch after a list of events is the fold of the named step over them. Two states are ready:
//! [`Covered`], the set of program counters, and [`LastSixteen`], the last of them in order.
#![tactic(auto)]

mod covered;
mod last_sixteen;
pub mod laws;
mod pair;
mod watch;

pub use covered::{Covered, CoveredStep, covered_step};
pub use last_sixteen::{LastSixteen, LastStep, last_step};
pub use watch::{Step, Watch, Watched};
