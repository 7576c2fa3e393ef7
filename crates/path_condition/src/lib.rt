//! Path conditions: what an input has to meet for a run to take the path that it took.
//!
//! [`Conditions`] is a list of terms of one arena, each of which has to have the value 1. A call adds what is stated of
//! terms as conditions on single bytes where it can, so that bytes of the input that don't bear on each other stay apart.
//! The constant 1, and a term that is in the list, add nothing. After a refusal of memory the list is as before.
#![tactic(auto)]

mod forms;
mod list;

pub use forms::byte_term;
pub use list::Conditions;
