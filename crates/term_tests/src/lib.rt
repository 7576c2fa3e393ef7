//! Terms and their normal forms as a caller makes them.
#![tactic(auto)]

#[cfg(test)]
mod arena;
#[cfg(test)]
mod normal;
