//! Bits of terms as a caller makes them, over the arena and the net.
#![tactic(auto)]

#[cfg(test)]
mod tests;
