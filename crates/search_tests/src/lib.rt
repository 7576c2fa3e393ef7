//! Nets, formulas, closures and searches as a caller makes them.
#![tactic(auto)]

#[cfg(test)]
mod tests;
