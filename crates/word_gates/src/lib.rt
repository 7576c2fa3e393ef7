//! The gates of the 32 bits of a constant, of a byte of the input, and of an operation on two words.
#![tactic(auto)]

mod adders;
mod bitwise;
mod bytes;
mod comparisons;
mod division;
mod moves;
mod operations;
mod processor;
mod products;
mod shifts;
mod signed;

pub use operations::{constant, input, operation};
