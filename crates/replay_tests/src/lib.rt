//! Replays of small programs, whose conditions are worked out by hand.
#![tactic(auto)]

#[cfg(test)]
mod conditions;
#[cfg(test)]
mod tests;
#[cfg(test)]
mod wanted;
