//! What stands after a call that was refused memory.
#![tactic(auto)]

#[cfg(test)]
mod tests;
