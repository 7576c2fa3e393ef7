//! The gates of the 32 bits of a term, made in a net without recursion.
#![tactic(auto)]

mod walk;

pub use walk::{Rows, bits, bits_with, rows_stay};
