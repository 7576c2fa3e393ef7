//! Through which calls a run came to where it ends.
//!
//! A [`CallStack`] follows the events of a run ([`watchers::Watch`]), and [`Reached`] the same one event
//! behind. [`stack_text`] tells a stack by the names of the program's functions, which [`Names`] finds.
#![tactic(auto)]

mod call_stack;
pub mod laws;
mod names;
mod reached;
mod text;

pub use call_stack::{CallStack, CallStep, call_step};
pub use names::Names;
pub use reached::{Reached, ReachedStep, reached_step};
pub use text::stack_text;
